//! Values among octets with their places (ISO 8825, 8.1), as far as they are seen.
ghost use Rattle.std.specs.Prelude.{◌≡◌, [], ◌∷◌, MatchOption, None, Some, ◌+◌, ◌*◌, ◌<◌, ◌≤◌, ◌^◌, length, IfSome};
ghost use Rattle.std.specs.Option.{option_copied, option_map};
ghost use Rattle.vf_ber.specs.Spellings.{number_in};
ghost use Rattle.vf_ber.specs.Steps.{grown};
ghost use Rattle.vf_upper_grammar.specs.Parts.{after_contents, after_end as ended_after, after_identifier as identified, after_length as measured, after_one as stripped, after_value as valued, after_number as numbered, cut_piece as cut_off, part_with as part_by, piece_of as piece_by, header_at as header_read, long_form as long_form_of, is_constructed as constructed_test, first_part as first_part_from};
ghost use Rattle.vf_upper_grammar.specs.Views.{header_of, piece_of as pieces, first_part_of, text_of};

use crate::text::{Header, Part, Piece, Text};

/// Bit 6 of the first octet of an identifier.
pub(crate) fn is_constructed(first: u8) -> bool
    ensures { result ≡ constructed_test first }
{
    first / 32 % 2 == 1
}

/// The first octet and those after it.
pub(crate) fn first_of(octets: &[u8]) -> Option<(u8, &[u8])>
    ensures { MatchOption result (octets.now ≡ []) (λ x. octets.now ≡ x.0 ∷ x.1.now) }
{
    match octets {
        [] => None,
        [first, after @ ..] => Some((*first, after)),
    }
}

fn after_one(octets: &[u8]) -> Option<&[u8]>
    ensures { option_copied result ≡ stripped octets.now }
{
    match octets {
        [] => None,
        [_, rest @ ..] => Some(rest),
    }
}

fn after_number(octets: &[u8]) -> Option<&[u8]>
    ensures { option_copied result ≡ numbered octets.now }
{
    match octets {
        [] => None,
        [octet, rest @ ..] => {
            if *octet < 128 {
                Some(rest)
            } else {
                after_one(rest)
            }
        }
    }
}

fn after_identifier(octets: &[u8]) -> Option<&[u8]>
    ensures { option_copied result ≡ identified octets.now }
{
    match octets {
        [] => None,
        [first, rest @ ..] => {
            if *first % 32 < 31 {
                Some(rest)
            } else {
                after_number(rest)
            }
        }
    }
}

/// The number of the octets of a long length, at most eight.
fn number_of(digits: &[u8]) -> u64
    requires { length digits.now ≤ 8 }
    ensures { result ≡ number_in 0 digits.now }
{
    let mut number = 0;
    for digit in digits {
        number = 256 * number + u64::from(*digit);
    }
    number
}

fn long_form(count: usize, octets: &[u8]) -> Option<Header<'_>>
    requires { count ≤ 8 }
    ensures { option_map header_of result ≡ long_form_of count octets.now }
{
    if octets.len() < count {
        return None;
    }
    let (digits, rest) = octets.split_at(count);
    Some(Header {
        count: Some(number_of(digits)),
        rest,
    })
}

fn after_length(octets: &[u8]) -> Option<Header<'_>>
    ensures { option_map header_of result ≡ measured octets.now }
{
    let [first, rest @ ..] = octets else {
        return None;
    };
    if *first < 128 {
        return Some(Header {
            count: Some(u64::from(*first)),
            rest,
        });
    }
    if *first == 128 {
        return Some(Header { count: None, rest });
    }
    if *first > 136 {
        return None;
    }
    long_form(usize::from(*first - 128), rest)
}

/// Identifier and length.
pub(crate) fn header_at(octets: &[u8]) -> Option<Header<'_>>
    ensures { option_map header_of result ≡ header_read octets.now }
{
    let rest = after_identifier(octets)?;
    after_length(rest)
}

/// After the end of contents, which stands after values in turn (ISO 8825, 8.1.5).
#[cycle(end)]
#[tactic(auto, using(crate::proofs::Ends::ends))]
fn after_end(octets: &[u8]) -> Option<&[u8]>
    ensures { option_copied result ≡ ended_after octets.now }
{
    let mut rest = octets;
    while let Some((first, after)) = first_of(rest) {
        if first == 0 {
            return after_one(after);
        }
        rest = after_value(rest)?;
    }
    None
}

/// After a value, where it is whole.
#[cycle(end)]
fn after_value(octets: &[u8]) -> Option<&[u8]>
    ensures { option_copied result ≡ valued ended_after octets.now }
{
    let header = header_at(octets)?;
    match header.count {
        Some(count) => after_count(count, header.rest),
        None => after_end(header.rest),
    }
}

fn after_count(count: u64, octets: &[u8]) -> Option<&[u8]>
    ensures { option_copied result ≡ after_contents ended_after (Some count) octets.now }
{
    if count > octets.len() as u64 {
        return None;
    }
    let (_, rest) = octets.split_at(count as usize);
    Some(rest)
}

/// What stands after an identifier and a length.
fn piece_of(count: Option<u64>, octets: &[u8]) -> Piece<'_>
    ensures piece { pieces result ≡ piece_by count octets.now }
    ensures inside { length result.octets.now ≤ length octets.now }
    ensures after { length result.rest.now ≤ length octets.now }
{
    match count {
        Some(count) => counted_piece(count, octets),
        None => ended_piece(octets),
    }
}

fn counted_piece(count: u64, octets: &[u8]) -> Piece<'_>
    ensures piece { pieces result ≡ piece_by (Some count) octets.now }
    ensures inside { length result.octets.now ≤ length octets.now }
    ensures after { length result.rest.now ≤ length octets.now }
{
    if count > octets.len() as u64 {
        return cut_piece(octets);
    }
    let (contents, rest) = octets.split_at(count as usize);
    Piece {
        octets: contents,
        whole: true,
        rest,
    }
}

fn ended_piece(octets: &[u8]) -> Piece<'_>
    ensures piece { pieces result ≡ piece_by None octets.now }
    ensures inside { length result.octets.now ≤ length octets.now }
    ensures after { length result.rest.now ≤ length octets.now }
{
    let Some(rest) = after_end(octets) else {
        return cut_piece(octets);
    };
    let len = octets.len().saturating_sub(rest.len()).saturating_sub(2);
    let (contents, _) = octets.split_at(len);
    Piece {
        octets: contents,
        whole: true,
        rest,
    }
}

fn cut_piece(octets: &[u8]) -> Piece<'_>
    ensures { pieces result ≡ cut_off octets.now }
{
    Piece {
        octets,
        whole: false,
        rest: &[],
    }
}

/// The place of octets that are the last of a text.
fn place_in(text: Text<'_>, rest: usize) -> u32
    requires { rest ≤ length text.octets.now }
    ensures { result + rest ≡ text.entry.at + length text.entry.octets.now }
{
    text.at + (text.octets.len() - rest) as u32
}

/// A part and what is after it, by its contents and the octets after it.
fn part_with<'a>(
    text: Text<'a>,
    first: u8,
    contents: usize,
    piece: Piece<'a>,
) -> (Part<'a>, Text<'a>)
    requires contents { contents ≤ length text.octets.now }
    requires inside { length piece.octets.now ≤ contents }
    requires after { length piece.rest.now ≤ length text.octets.now }
    ensures { first_part_of result ≡ part_by (text_of text.entry) first contents (pieces piece.entry) }
{
    let at = place_in(text, piece.rest.len());
    let part = Part {
        at: text.at,
        first,
        contents: Text {
            octets: piece.octets,
            at: place_in(text, contents),
            whole: piece.whole,
        },
        after: at,
    };
    let rest = Text {
        octets: piece.rest,
        at,
        whole: piece.whole && text.whole,
    };
    (part, rest)
}

/// The first part of a text, and what is after it. An octet 00 is none.
#[tactic(auto, unfolding(crate::specs::Parts::first_part))]
pub(crate) fn first_part<'a>(text: Text<'a>) -> Option<(Part<'a>, Text<'a>)>
    ensures { option_map first_part_of result ≡ first_part_from (text_of text.entry) }
{
    let (first, _) = first_of(text.octets)?;
    if first == 0 {
        return None;
    }
    let Some(header) = header_at(text.octets) else {
        return Some(part_with(text, first, 0, cut_piece(&[])));
    };
    let piece = piece_of(header.count, header.rest);
    Some(part_with(text, first, header.rest.len(), piece))
}
