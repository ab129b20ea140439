//! Each function once, beside what it must answer.

ghost use Rattle.std.specs.Char.{is_ascii_alphabetic};

use jp_reading::{CharacterClass, Reader, Span, Stop, digit, is_at_digit, natural, split_first};
use std::test::Fail;

#[derive(Clone, Copy)]
struct Letter;

impl CharacterClass for Letter {
    ghost holds = { λ _ c. is_ascii_alphabetic c };

    fn contains(self, c: char) -> bool {
        c.is_ascii_alphabetic()
    }
}

#[test]
fn looks_at_characters(rt: HostRuntime) {
    assert_eq!(rt; split_first("é["), Some(('é', "[")));
    let mut reader = Reader::new(rt.alloc(), "é \t\r\n[");
    let seen = (reader.peek(), reader.peek_second(), reader.bump());
    assert_eq!(rt; seen, (Some('é'), Some(' '), Some('é')));
    let seen = (
        reader.place(),
        reader.peek_past_blank(),
        reader.is_before('['),
    );
    assert_eq!(rt; seen, (2, Some('['), true));
}

#[test]
fn walks_over_blanks(rt: HostRuntime) {
    let mut reader = Reader::new(rt.alloc(), "é \t\r\n[");
    let first = reader.bump();
    reader.skip();
    let walked = (first, reader.place(), reader.is_at('['));
    assert_eq!(rt; walked, (Some('é'), 6, true));
    let met = (reader.expect('['), reader.expect('\''));
    assert_eq!(rt; met, (Ok(()), Err(Stop::Syntax(7))));
}

#[test]
fn takes_one_character_of_a_class(rt: HostRuntime) {
    let mut reader = Reader::new(rt.alloc(), "a1");
    let first = (reader.is_at_one_of(Letter), reader.take_one_of(Letter));
    assert_eq!(rt; first, (true, Ok('a')));
    let second = (reader.is_at_one_of(Letter), reader.take_one_of(Letter));
    assert_eq!(rt; second, (false, Err(Stop::Syntax(1))));
}

#[test]
fn reads_numbers(rt: HostRuntime) {
    let mut reader = Reader::new(rt.alloc(), "718446744073709551616]");
    let first = (is_at_digit(&reader), digit(&mut reader));
    assert_eq!(rt; first, (true, Ok(7)));
    let others = (natural(&mut reader, 1 << 64), natural(&mut reader, 1 << 64));
    assert_eq!(rt; others, (Ok(18446744073709551616), Err(Stop::Syntax(21))));
}

#[test]
fn reads_numbers_up_to_a_cap(rt: HostRuntime) {
    let mut reader = Reader::new(rt.alloc(), "9007199254740993");
    let capped = natural(&mut reader, 9007199254740992);
    assert_eq!(rt; capped, Ok(9007199254740992));
}

/// Reads a number in brackets, with spans for the whole, for the number, and for a component that is left out.
fn read_bracketed(reader: &mut Reader) -> Result<(), Stop> {
    let outer = (reader.place(), reader.components());
    reader.expect('[')?;
    let inner = (reader.place(), reader.components());
    natural(reader, 100)?;
    reader.add_component(inner.0, inner.1)?;
    reader.expect(']')?;
    reader.add_component(outer.0, outer.1)?;
    Ok(reader.omit_component()?)
}

#[test]
fn keeps_outer_components_before_inner_ones(rt: HostRuntime) -> Result<(), Fail> {
    let mut reader = Reader::new(rt.alloc(), "[42]");
    read_bracketed(&mut reader)?;
    assert_eq!(rt; reader.components(), 3);
    let spans = reader.into_spans();
    let expected = [
        Some(Span { start: 0, end: 4 }),
        Some(Span { start: 1, end: 3 }),
        None,
    ];
    assert_eq!(rt; spans.as_slice(), expected.as_slice());
    Ok(())
}

#[test]
fn lends_its_allocator(rt: HostRuntime) -> Result<(), Fail> {
    let reader = Reader::new(rt.alloc(), "");
    let mut letters: Vec<u8> = Vec::new(reader.alloc());
    letters.push(7)?;
    assert_eq!(rt; letters.as_slice(), [7].as_slice());
    Ok(())
}
