// Text tables, look-ups and notice lines.
use crate::numbered::numbered;
use notice::{CounterNotice, LONGEST_LINE, Tables};

// A record of a table: its code, the length that it says, and its text.
#[derive(Clone, Copy)]
struct TextRecord<'a> {
    code: u8,
    length: u8,
    text: &'a [u8],
}

fn record(code: u8, length: u8, text: &[u8]) -> TextRecord<'_> {
    TextRecord { code, length, text }
}

// Writes a record over the 64 zeros that stand for it in a table.
fn put(place: &mut [u8; 64], record: TextRecord) {
    place[0] = record.code;
    place[1] = record.length;
    for (byte, letter) in place[2..].iter_mut().zip(record.text) {
        *byte = *letter;
    }
}

// The table of two records.
fn pair(first: TextRecord, second: TextRecord) -> [u8; 128] {
    let mut table = [0u8; 128];
    let (places, _) = table.as_chunks_mut::<64>();
    put(&mut places[0], first);
    put(&mut places[1], second);
    table
}

// Whether the look-up answers this: a text, or the number that refuses it.
fn answers(own: &[u8], english: &[u8], code: u8, expected: Result<&[u8], u8>) -> bool {
    numbered(Tables { own, english }.look_up(code)) == expected
}

// The same of either table: the other is empty.
fn each_answers(table: &[u8], code: u8, expected: Result<&[u8], u8>) -> bool {
    answers(table, &[], code, expected) && answers(&[], table, code, expected)
}

// Fills a table with records of the code 1, and a first one of the code 2.
fn fill(table: &mut [u8]) {
    let (places, _) = table.as_chunks_mut::<64>();
    if let Some((first, others)) = places.split_first_mut() {
        put(first, record(2, 1, b"y"));
        for place in others.iter_mut() {
            put(place, record(1, 1, b"x"));
        }
    }
}

#[test]
fn tables_have_at_most_256_records(rt: HostRuntime) {
    let mut full = [0u8; 16_384];
    fill(&mut full);
    let mut over = [0u8; 16_448];
    fill(&mut over);
    assert!(rt; each_answers(&full, 2, Ok(b"y")) && each_answers(&over, 2, Err(25)));
}

#[test]
fn tables_are_whole_records(rt: HostRuntime) {
    let table = pair(record(2, 1, b"y"), record(3, 1, b"z"));
    for size in 0..129usize {
        let expected = match size {
            0 => Err(27),
            64 | 128 => Ok(b"y".as_slice()),
            _ => Err(25),
        };
        assert!(rt; each_answers(&table[0..size], 2, expected));
    }
}

#[test]
fn lengths_are_1_to_62(rt: HostRuntime) {
    let text = [b'a'; 62];
    for length in 0..=255 {
        // a shorter length leaves letters where zeros must be
        let expected = if length == 62 {
            Ok(text.as_slice())
        } else {
            Err(26)
        };
        let table = pair(record(7, length, &text), record(8, 1, b"b"));
        assert!(rt; each_answers(&table, 7, expected));
    }
    let shortest = pair(record(7, 1, b"a"), record(8, 1, b"b"));
    let empty = pair(record(7, 1, b"a"), record(8, 0, b""));
    assert!(rt; each_answers(&shortest, 7, Ok(b"a")) && each_answers(&empty, 7, Err(26)));
}

#[test]
fn tails_are_zero(rt: HostRuntime) {
    let good = pair(record(7, 2, b"ab"), record(8, 2, b"cd"));
    for at in 4..128usize {
        let mut table = good;
        table[at] = 9;
        // the bytes 0 to 3 of a record are its code, its length and its text
        let expected = if at % 64 < 4 {
            Ok(b"ab".as_slice())
        } else {
            Err(26)
        };
        assert!(rt; each_answers(&table, 7, expected));
    }
}

#[test]
fn the_offices_language_comes_first(rt: HostRuntime) {
    let own = pair(record(1, 4, b"eins"), record(0, 4, b"null"));
    let english = pair(record(1, 3, b"one"), record(2, 3, b"two"));
    assert!(rt; answers(&own, &english, 1, Ok(b"eins")) && answers(&english, &own, 1, Ok(b"one")));
    assert!(rt; answers(&own, &english, 2, Ok(b"two")) && answers(&english, &own, 2, Ok(b"two")));
    assert!(rt; answers(&own, &english, 0, Ok(b"null")) && answers(&own, &english, 3, Err(27)));
    let twice = pair(record(4, 5, b"first"), record(4, 6, b"second"));
    assert!(rt; each_answers(&twice, 4, Ok(b"first")));
}

#[test]
fn questions_are_asked_in_their_order(rt: HostRuntime) {
    let good = pair(record(1, 1, b"x"), record(2, 1, b"y"));
    let bad = pair(record(1, 0, b""), record(2, 1, b"y"));
    // 25 of both tables comes before 26 of either, and that before 27
    assert!(rt; answers(&bad, &good[0..63], 1, Err(25)) && answers(&good[0..63], &bad, 1, Err(25)));
    assert!(rt; answers(&good, &bad, 1, Err(26)) && answers(&bad, &good, 3, Err(26)));
    // a line asks 5 first and 28 last
    let part = &good[0..63];
    assert!(rt;
        without_room(16, 1, part, &bad) == Err(5) && without_room(15, 1, part, &bad) == Err(25)
    );
    assert!(rt;
        without_room(15, 1, &good, &bad) == Err(26) && without_room(15, 3, &good, &good) == Err(27)
    );
    assert!(rt; without_room(15, 1, &good, &good) == Err(28));
}

// What a line into an output without room answers.
fn without_room(office: u8, code: u8, own: &[u8], english: &[u8]) -> Result<usize, u8> {
    let mut out = [0u8; 0];
    numbered(CounterNotice { office, code }.write_line(Tables { own, english }, &mut out))
}

#[test]
fn a_line_fits_or_leaves_the_output(rt: HostRuntime) {
    let english = pair(record(6, 5, b"Bring"), record(7, 1, b"x"));
    let tables = Tables {
        own: &[],
        english: &english,
    };
    let notice = CounterNotice {
        office: 15,
        code: 6,
    };
    for room in 0..13usize {
        let mut out = [b'.'; 12];
        let answer = numbered(notice.write_line(tables, &mut out[0..room.min(12)]));
        let fits = room >= 9;
        assert_eq!(rt; answer, if fits { Ok(9) } else { Err(28) });
        assert_eq!(rt; out, if fits { *b"15 Bring\n..." } else { [b'.'; 12] });
    }
}

#[test]
fn offices_are_below_16(rt: HostRuntime) {
    let english = pair(record(6, 5, b"Bring"), record(7, 1, b"x"));
    let tables = Tables {
        own: &[],
        english: &english,
    };
    for office in 0..=255 {
        let mut out = [b'.'; LONGEST_LINE];
        let length = CounterNotice { office, code: 6 }.show_line(tables, &mut out);
        // the line, or 05 and what was there
        assert_eq!(rt; length, if office < 16 { 9 } else { 3 });
        assert_eq!(rt;
            out[0],
            if office < 10 || office >= 16 {
                b'0'
            } else {
                b'1'
            }
        );
        assert_eq!(rt;
            out[1],
            if office < 16 {
                b'0' + office % 10
            } else {
                b'5'
            }
        );
        assert_eq!(rt; out[8], if office < 16 { b'\n' } else { b'.' });
    }
}

#[test]
fn the_longest_line_has_66_bytes(rt: HostRuntime) {
    let text = [b'z'; 62];
    let english = pair(record(6, 62, &text), record(7, 1, b"x"));
    let tables = Tables {
        own: &[],
        english: &english,
    };
    let notice = CounterNotice { office: 3, code: 6 };
    let mut out = [b'.'; LONGEST_LINE];
    assert_eq!(rt; notice.show_line(tables, &mut out), 66);
    assert!(rt; out[0] == b'0' && out[1] == b'3' && out[2] == b' ' && out[3] == b'z');
    assert!(rt; out[64] == b'z' && out[65] == b'\n');
}

// Whether a line that has room is refused by this number, and the output stays as it was.
fn leaves_output(office: u8, code: u8, own: &[u8], number: u8) -> bool {
    let mut out = [b'.'; 12];
    let notice = CounterNotice { office, code };
    let answer = numbered(notice.write_line(Tables { own, english: &[] }, &mut out));
    answer == Err(number) && out == [b'.'; 12]
}

#[test]
fn a_refusal_leaves_the_output(rt: HostRuntime) {
    let good = pair(record(6, 5, b"Bring"), record(7, 1, b"x"));
    let bad = pair(record(6, 5, b"Bring"), record(7, 0, b""));
    assert!(rt; leaves_output(16, 6, &good, 5) && leaves_output(0, 6, &good[0..65], 25));
    assert!(rt; leaves_output(0, 6, &bad, 26) && leaves_output(0, 8, &good, 27));
}
