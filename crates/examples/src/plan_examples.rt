// Plans: their rounds, whom they name, and what each office knows of after the rounds.
use plans::{Cube, Mesh, NumberedPlan, Plan, Star, Turn, UnknownPlan, plan_numbered};
use std::process::Abort;
use words::Offices;

// Some numbers of offices, the same for all plans.
const SIZES: [u8; 11] = [0, 1, 2, 3, 4, 6, 8, 15, 16, 17, 255];

// The plan has these rounds for these numbers of offices.
fn has_rounds<P: Plan>(rt: &impl Abort, plan: &P, rounds: [u8; 11]) {
    for (n, rounds) in SIZES.into_iter().zip(rounds) {
        assert!(rt; plan.rounds(n) == rounds);
        assert!(rt; plan.serves(n) == (rounds > 0));
    }
}

#[test]
fn mesh_has_one_round(rt: HostRuntime) {
    has_rounds(&rt, &Mesh, [0, 0, 1, 1, 1, 1, 1, 1, 1, 0, 0]);
    has_rounds(&rt, &plan_numbered(0), [0, 0, 1, 1, 1, 1, 1, 1, 1, 0, 0]);
}

#[test]
fn star_has_two_rounds(rt: HostRuntime) {
    has_rounds(&rt, &Star, [0, 0, 2, 2, 2, 2, 2, 2, 2, 0, 0]);
    has_rounds(&rt, &plan_numbered(1), [0, 0, 2, 2, 2, 2, 2, 2, 2, 0, 0]);
}

#[test]
fn cube_serves_four_numbers_of_offices(rt: HostRuntime) {
    has_rounds(&rt, &Cube, [0, 0, 1, 0, 2, 0, 3, 0, 4, 0, 0]);
    has_rounds(&rt, &plan_numbered(2), [0, 0, 1, 0, 2, 0, 3, 0, 4, 0, 0]);
}

// Among n offices, in this round, these speak to the listener, and nobody else does.
fn hears<P: Plan>(rt: &impl Abort, plan: &P, n: u8, round: u8, listener: u8, speakers: &[u8]) {
    let expected = speakers
        .iter()
        .fold(Offices::none(), |offices, speaker| offices.with(*speaker));
    for speaker in 0..=255 {
        let turn = Turn {
            round,
            speaker,
            listener,
        };
        assert!(rt; plan.names(n, turn) == expected.contains(speaker));
    }
}

// Among n offices nobody speaks to anybody, in any round up to 17.
fn silent<P: Plan>(rt: &impl Abort, plan: &P, n: u8) {
    for round in 0..18 {
        for listener in 0..18 {
            hears(rt, plan, n, round, listener, &[]);
        }
    }
}

#[test]
fn where_a_plan_does_not_serve_nobody_speaks(rt: HostRuntime) {
    silent(&rt, &Mesh, 1);
    silent(&rt, &Mesh, 17);
    silent(&rt, &Star, 0);
    silent(&rt, &Star, 255);
    silent(&rt, &Cube, 6);
}

#[test]
fn another_number_serves_nobody(rt: HostRuntime) {
    has_rounds(&rt, &plan_numbered(3), [0; 11]);
    has_rounds(&rt, &plan_numbered(255), [0; 11]);
    silent(&rt, &plan_numbered(3), 4);
    silent(&rt, &plan_numbered(255), 16);
}

#[test]
fn three_plans_have_numbers(rt: HostRuntime) {
    assert_eq!(rt; NumberedPlan::try_from(0), Ok(NumberedPlan::Mesh));
    assert_eq!(rt; NumberedPlan::try_from(1), Ok(NumberedPlan::Star));
    assert_eq!(rt; NumberedPlan::try_from(2), Ok(NumberedPlan::Cube));
    assert_eq!(rt; NumberedPlan::try_from(3), Err(UnknownPlan(3)));
    assert_eq!(rt; NumberedPlan::try_from(255), Err(UnknownPlan(255)));
}

#[test]
fn in_a_mesh_everyone_speaks_to_everyone_else(rt: HostRuntime) {
    hears(&rt, &Mesh, 3, 1, 0, &[1, 2]);
    hears(&rt, &Mesh, 3, 1, 1, &[0, 2]);
    hears(&rt, &Mesh, 3, 1, 2, &[0, 1]);
    // nobody to a number from n up
    hears(&rt, &Mesh, 3, 1, 3, &[]);
    hears(&rt, &Mesh, 3, 1, 255, &[]);
    // nobody in another round
    hears(&rt, &Mesh, 3, 0, 0, &[]);
    hears(&rt, &Mesh, 3, 2, 0, &[]);
    hears(
        &rt,
        &Mesh,
        16,
        1,
        15,
        &[0, 1, 2, 3, 4, 5, 6, 7, 8, 9, 10, 11, 12, 13, 14],
    );
}

#[test]
fn in_a_star_the_others_speak_to_office_0_first(rt: HostRuntime) {
    hears(&rt, &Star, 3, 1, 0, &[1, 2]);
    // office 0 does not speak in round 1
    hears(&rt, &Star, 3, 1, 1, &[]);
    hears(&rt, &Star, 3, 1, 2, &[]);
    hears(&rt, &Star, 3, 1, 3, &[]);
    hears(&rt, &Star, 3, 0, 0, &[]);
    hears(&rt, &Star, 3, 3, 0, &[]);
}

#[test]
fn in_a_star_office_0_speaks_to_the_others_then(rt: HostRuntime) {
    hears(&rt, &Star, 3, 2, 1, &[0]);
    hears(&rt, &Star, 3, 2, 2, &[0]);
    // the others do not speak in round 2
    hears(&rt, &Star, 3, 2, 0, &[]);
    hears(&rt, &Star, 3, 2, 3, &[]);
    hears(&rt, &Star, 3, 0, 1, &[]);
    hears(&rt, &Star, 3, 3, 1, &[]);
}

#[test]
fn in_a_cube_of_4_numbers_differ_in_one_bit(rt: HostRuntime) {
    // in either round 1 and 2 speak to 0, and 3 does not
    hears(&rt, &Cube, 4, 1, 0, &[1, 2]);
    hears(&rt, &Cube, 4, 2, 0, &[1, 2]);
    hears(&rt, &Cube, 4, 1, 1, &[0, 3]);
    hears(&rt, &Cube, 4, 2, 3, &[1, 2]);
    // 4 and 0 differ in one bit too, but 4 is none of the offices
    hears(&rt, &Cube, 4, 1, 4, &[]);
    hears(&rt, &Cube, 4, 0, 0, &[]);
    hears(&rt, &Cube, 4, 3, 0, &[]);
}

#[test]
fn in_a_larger_cube_too(rt: HostRuntime) {
    hears(&rt, &Cube, 8, 1, 0, &[1, 2, 4]);
    hears(&rt, &Cube, 8, 3, 7, &[3, 5, 6]);
    hears(&rt, &Cube, 8, 4, 0, &[]);
    hears(&rt, &Cube, 16, 1, 0, &[1, 2, 4, 8]);
    hears(&rt, &Cube, 16, 4, 15, &[7, 11, 13, 14]);
    hears(&rt, &Cube, 16, 5, 0, &[]);
}

#[test]
fn a_number_names_whom_its_plan_names(rt: HostRuntime) {
    hears(&rt, &plan_numbered(0), 4, 1, 1, &[0, 2, 3]);
    hears(&rt, &plan_numbered(0), 4, 2, 1, &[]);
    hears(&rt, &plan_numbered(1), 4, 1, 1, &[]);
    hears(&rt, &plan_numbered(1), 4, 2, 1, &[0]);
    hears(&rt, &plan_numbered(2), 4, 1, 1, &[0, 3]);
    hears(&rt, &plan_numbered(2), 4, 2, 1, &[0, 3]);
}

// Whom each of sixteen offices knows of.
type Known = [Offices; 16];

// Whom each office knows of before the first round: itself.
fn at_first() -> Known {
    let mut known = [Offices::none(); 16];
    for (office, knows) in (0..16).zip(&mut known) {
        *knows = Offices::none().with(office);
    }
    known
}

// Whom the listener knows of after the round: also of those whom its speakers knew of before it.
fn told<P: Plan>(plan: &P, n: u8, round: u8, known: &Known, listener: u8) -> Offices {
    (0..16)
        .zip(known)
        .filter(|(speaker, _)| {
            let turn = Turn {
                round,
                speaker: *speaker,
                listener,
            };
            *speaker == listener || plan.names(n, turn)
        })
        .fold(Offices::none(), |all, (_, knows)| all.union(*knows))
}

// Whom each office knows of after this many rounds among n offices.
fn known_after<P: Plan>(plan: &P, n: u8, rounds: u8) -> Known {
    let mut known = at_first();
    for round in 1..=rounds {
        let before = known;
        for (listener, knows) in (0..16).zip(&mut known) {
            *knows = told(plan, n, round, &before, listener);
        }
    }
    known
}

// Where the plan serves n, up to 16, each of n offices knows of all n after the last round.
fn covers<P: Plan>(rt: &impl Abort, plan: &P) {
    for n in 0..17 {
        if plan.serves(n) {
            let known = known_after(plan, n, plan.rounds(n));
            for knows in known.into_iter().take(n as usize) {
                assert!(rt; knows.holds_all(n));
            }
        }
    }
}

#[test]
fn after_the_last_round_each_knows_of_all(rt: HostRuntime) {
    covers(&rt, &Mesh);
    covers(&rt, &Star);
    covers(&rt, &Cube);
    for number in 0..=255 {
        covers(&rt, &plan_numbered(number));
    }
}

#[test]
fn after_an_earlier_round_some_do_not(rt: HostRuntime) {
    // in a cube of 4, after round 1, office 0 knows of 0, 1 and 2
    let known = known_after(&Cube, 4, 1);
    assert!(rt; known[0] == Offices::none().with(0).with(1).with(2));
    // in a star of 3, after round 1, office 0 knows of all, and office 1 of itself
    let known = known_after(&Star, 3, 1);
    assert!(rt; known[0].holds_all(3));
    assert!(rt; known[1] == Offices::none().with(1));
}
