// Sums, classes and sets of offices.
use words::{Class, Decision, Knowledge, Offices, TermWord, sum};

// The set of these offices.
fn set(offices: &[u8]) -> Offices {
    offices
        .iter()
        .fold(Offices::none(), |all, office| all.with(*office))
}

fn knowledge(yes: &[u8], no: &[u8], ready: &[u8]) -> Knowledge {
    Knowledge {
        yes: set(yes),
        no: set(no),
        ready: set(ready),
    }
}

const N: TermWord = TermWord::Noncommittable;

const C: TermWord = TermWord::Committable;

const A: TermWord = TermWord::Abort;

// Two words and their sum.
const TERM_SUMS: [(TermWord, TermWord, TermWord); 9] = [
    (N, N, N),
    (N, C, C),
    (N, A, A),
    (C, N, C),
    (C, C, C),
    (C, A, A),
    (A, N, A),
    (A, C, A),
    (A, A, A),
];

#[test]
fn termination_words_sum_to_the_higher(rt: HostRuntime) {
    for (a, b, both) in TERM_SUMS {
        assert!(rt; sum(&[a, b]) == both && sum(&[N, b, a, b]) == both);
        // two words are the same where each is their sum
        assert!(rt; (a == b) == (a == both && b == both));
    }
    assert!(rt; sum::<TermWord>(&[]) == N);
}

#[test]
fn knowledge_sums_set_by_set(rt: HostRuntime) {
    let first = knowledge(&[0], &[3], &[15]);
    let second = knowledge(&[0, 1], &[], &[2]);
    let both = knowledge(&[0, 1], &[3], &[2, 15]);
    assert!(rt; sum(&[first, second]) == both && sum(&[second, first, second]) == both);
    assert!(rt; sum::<Knowledge>(&[]) == knowledge(&[], &[], &[]));
}

#[test]
fn knowledge_differs_in_any_of_its_sets(rt: HostRuntime) {
    let k = knowledge(&[0], &[1], &[2]);
    let others = [
        knowledge(&[], &[1], &[2]),
        knowledge(&[0], &[], &[2]),
        knowledge(&[0], &[1], &[]),
    ];
    for other in others {
        assert!(rt; k == k && other == other && k != other);
    }
}

// The offices 0 to 15.
const ALL: [u8; 16] = [0, 1, 2, 3, 4, 5, 6, 7, 8, 9, 10, 11, 12, 13, 14, 15];

// The class of a knowledge among n offices.
#[derive(Clone, Copy)]
struct ClassCase {
    yes: &'static [u8],
    no: &'static [u8],
    ready: &'static [u8],
    n: u8,
    class: Class,
}

const fn classed(
    yes: &'static [u8],
    no: &'static [u8],
    ready: &'static [u8],
    n: u8,
    class: Class,
) -> ClassCase {
    ClassCase {
        yes,
        no,
        ready,
        n,
        class,
    }
}

#[test]
fn the_first_rule_that_fits_gives_the_class(rt: HostRuntime) {
    let cases = [
        classed(&[0, 1, 2], &[], &[0], 3, Class::Committable),
        classed(&[0, 1], &[2], &[], 3, Class::Aborted),
        classed(&[0, 1, 2], &[], &[0, 1, 2], 3, Class::Committed),
        classed(&[0, 2], &[], &[], 3, Class::Noncommittable),
        classed(&[0, 1, 2], &[2], &[0, 1, 2], 3, Class::Aborted),
        // a ready set that holds all decides, whatever `yes` holds
        classed(&[], &[], &[0, 1, 2], 3, Class::Committed),
        // a no counts, whoever voted it
        classed(&[0, 1], &[5], &[], 2, Class::Aborted),
        classed(&ALL, &[], &ALL, 16, Class::Committed),
        // no set holds seventeen offices
        classed(&ALL, &[], &ALL, 17, Class::Noncommittable),
        classed(&ALL, &[], &ALL, 255, Class::Noncommittable),
        // every set holds all of no offices
        classed(&[], &[], &[], 0, Class::Committed),
    ];
    for case in cases.iter() {
        assert!(rt; knowledge(case.yes, case.no, case.ready).class(case.n) == case.class);
    }
}

#[test]
fn two_classes_are_decisions(rt: HostRuntime) {
    assert!(rt;
        Class::Committed.decision() == Some(Decision::Commit)
            && Class::Aborted.decision() == Some(Decision::Abort)
            && Class::Committable.decision() == None
            && Class::Noncommittable.decision() == None
    );
}

#[test]
fn sets_hold_offices_below_sixteen(rt: HostRuntime) {
    for office in 0..=255 {
        let one = set(&[office]);
        // a number from 16 up is no office
        assert!(rt; one.contains(office) == (office < 16) && one.is_empty() == (office >= 16));
        assert!(rt; set(&ALL).contains(office) == (office < 16));
        assert!(rt; set(&ALL).holds_all(office) == (office <= 16));
        assert!(rt; !one.holds_all(2) && one.union(set(&[0, 1])).holds_all(2));
    }
}
