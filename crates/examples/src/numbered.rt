// The answers of calls, with the numbers of refusals.
use refusals::Refusal;

// What a call answered, with the number of its refusal: the numbers are what is tested.
pub(crate) fn numbered<T, E: Refusal + Drop>(answer: Result<T, E>) -> Result<T, u8> {
    answer.map_err(|fault| fault.number())
}
