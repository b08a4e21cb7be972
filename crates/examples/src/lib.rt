// Worked examples of the layers, as tests over what each makes public. They stand in a crate of their
// own, since a crate with tests is proved twice.
#![tactic(auto)]

#[cfg(test)]
mod notice_examples;
#[cfg(test)]
mod numbered;
#[cfg(test)]
mod plan_examples;
#[cfg(test)]
mod post_examples;
#[cfg(test)]
mod refusal_examples;
#[cfg(test)]
mod word_examples;
