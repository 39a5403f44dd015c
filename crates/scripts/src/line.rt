//! What a line of a script says.
ghost use Rattle.std.specs.Prelude.{MatchOption};
ghost use Rattle.scripts.specs.Understood.{Told, Understood};
ghost use Rattle.scripts.specs.Lines.{Lacks, Cut, Says, SaysCall, SaysMore, OneMeaning};

use super::call::Call;
use super::not_understood::NotUnderstood;

const TAB: u8 = b'\t';

/// What stands before the first such byte and what after it, or none where the text lacks it.
pub fn cut_at(text: &[u8], byte: u8) -> Option<(&[u8], &[u8])>
    ensures { MatchOption result (Lacks byte text.now) (λ p. Cut byte text.now p.0.now p.1.now) }
{
    let place = text.iter().position(|b| *b == byte)?;
    Some((&text[..place], &text[place + 1..]))
}

/// What a line says: a call with its fields, or nothing where it is empty or a comment.
#[tactic(auto, using(crate::proofs::Sayings::says_once))]
pub fn read_line(line: &[u8]) -> Result<Option<Call<'_>>, NotUnderstood>
    ensures meaning { Understood (Says line.now) result }
    ensures one { OneMeaning line.now }
{
    match line {
        [] | [b'#', ..] => Ok(None),
        _ => match read_call(line) {
            Some(call) => Ok(Some(call)),
            None => Err(NotUnderstood),
        },
    }
}

// The call whose word and fields the line has, or none where it is no call.
fn read_call(line: &[u8]) -> Option<Call<'_>>
    ensures { Told (SaysCall line.now) result }
{
    let Some((word, fields)) = cut_at(line, TAB) else {
        return None;
    };
    match cut_at(fields, TAB) {
        None => Call::of_one(word, fields),
        Some((first, others)) => read_more(word, first, others),
    }
}

// The call of that word with that first field, and two or three fields in all.
fn read_more<'a>(word: &[u8], first: &'a [u8], others: &'a [u8]) -> Option<Call<'a>>
    ensures { Told (SaysMore word.now first.entry.now others.entry.now) result }
{
    match cut_at(others, TAB) {
        None => Call::of_two(word, first, others),
        Some((second, third)) if !third.contains(&TAB) => {
            Call::of_three(word, first, second, third)
        }
        Some(_) => None,
    }
}
