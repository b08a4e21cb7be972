// A refusal's line.
use notice::{NoticeFault, TextFault};
use refusals::refusal_line;

#[test]
fn numbers_have_two_digits(rt: HostRuntime) {
    assert_eq!(rt; refusal_line(&NoticeFault::Office), *b"05\n");
    assert_eq!(rt;
        refusal_line(&NoticeFault::Text(TextFault::Table)),
        *b"25\n"
    );
    assert_eq!(rt;
        refusal_line(&NoticeFault::Text(TextFault::Record)),
        *b"26\n"
    );
    assert_eq!(rt; refusal_line(&NoticeFault::Text(TextFault::Code)), *b"27\n");
    assert_eq!(rt; refusal_line(&NoticeFault::Room), *b"28\n");
}
