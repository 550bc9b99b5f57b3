//! What the fields behind a keyword say.

ghost use Rattle.std.specs.Prelude.{◌≡◌, IfSome};
ghost use Rattle.trace_text.specs.Grammar.{words_of, read_in, block_in, fields_in};
ghost use Rattle.trace_text.specs.Ranges.{IsReadInRange, IsInRange};

use crate::keyword::{Keyword, park_named, trap_named};
use crate::numbers::{address, answer, decimal, decimal_within, name_of, text_count};
use crate::trace_line::TraceBody;
use crate::words::{five, one, three, two};
use spec_base::{BlockSpot, Note, ReadSpot};

#[tactic(auto, unfolding(crate::specs::Grammar::fields_in, crate::specs::Grammar::call_in))]
fn call(fields: &[u8]) -> Option<TraceBody>
    ensures value { result ≡ fields_in Keyword.Call (words_of fields.now) }
    ensures range { IfSome result IsInRange }
{
    let (first, second, third, fourth, fifth) = five(fields)?;
    let number = decimal(first)?;
    let a0 = decimal(second)?;
    let a1 = decimal(third)?;
    let a2 = decimal(fourth)?;
    let answer = answer(fifth)?;
    Some(TraceBody::Note(Note::Call {
        number,
        a0,
        a1,
        a2,
        answer,
    }))
}

#[tactic(auto, unfolding(crate::specs::Grammar::fields_in, crate::specs::Grammar::text_in))]
fn text(fields: &[u8]) -> Option<TraceBody>
    ensures value { result ≡ fields_in Keyword.Text (words_of fields.now) }
    ensures range { IfSome result IsInRange }
{
    let (first, second) = two(fields)?;
    let to = decimal_within(first, 2)?;
    let count = text_count(second)?;
    if to == 0 {
        None
    } else {
        Some(TraceBody::Note(Note::Text {
            to: to as u8,
            count,
        }))
    }
}

#[tactic(auto, unfolding(crate::specs::Grammar::read_in))]
fn read(fields: &[u8]) -> Option<ReadSpot>
    ensures value { result ≡ read_in (words_of fields.now) }
    ensures range { IfSome result IsReadInRange }
{
    let (first, second, third) = three(fields)?;
    let name = name_of(first)?;
    let offset = decimal_within(second, (1 << 56) - 1)?;
    let count = decimal_within(third, 65_536)?;
    Some(ReadSpot {
        name,
        offset,
        count,
    })
}

#[tactic(auto, unfolding(crate::specs::Grammar::block_in))]
fn block(fields: &[u8]) -> Option<BlockSpot>
    ensures { result ≡ block_in (words_of fields.now) }
{
    let (first, second) = two(fields)?;
    let name = name_of(first)?;
    let block = decimal_within(second, (1 << 44) - 1)?;
    Some(BlockSpot { name, block })
}

#[tactic(auto, unfolding(crate::specs::Grammar::fields_in, crate::specs::Grammar::exit_in))]
fn exit(fields: &[u8]) -> Option<TraceBody>
    ensures value { result ≡ fields_in Keyword.Exit (words_of fields.now) }
    ensures range { IfSome result IsInRange }
{
    let word = one(fields)?;
    let code = decimal_within(word, 255)?;
    Some(TraceBody::Note(Note::Exit(code as u8)))
}

#[tactic(auto, unfolding(crate::specs::Grammar::fields_in, crate::specs::Grammar::trapped_in))]
fn trapped(fields: &[u8]) -> Option<TraceBody>
    ensures value { result ≡ fields_in Keyword.Trap (words_of fields.now) }
    ensures range { IfSome result IsInRange }
{
    let (first, second) = two(fields)?;
    let trap = trap_named(first)?;
    let pc = address(second)?;
    Some(TraceBody::Note(Note::Trap(trap, pc)))
}

#[tactic(auto, unfolding(crate::specs::Grammar::fields_in, crate::specs::Grammar::parked_in))]
fn parked(fields: &[u8]) -> Option<TraceBody>
    ensures value { result ≡ fields_in Keyword.Park (words_of fields.now) }
    ensures range { IfSome result IsInRange }
{
    let word = one(fields)?;
    let cause = park_named(word)?;
    Some(TraceBody::Note(Note::Park(cause)))
}

#[tactic(auto, unfolding(crate::specs::Grammar::fields_in, crate::specs::Grammar::fault_in))]
fn fault(fields: &[u8]) -> Option<TraceBody>
    ensures value { result ≡ fields_in Keyword.Fault (words_of fields.now) }
    ensures range { IfSome result IsInRange }
{
    let word = one(fields)?;
    if word == b"store".as_slice() {
        Some(TraceBody::Note(Note::Fault))
    } else {
        None
    }
}

#[tactic(auto, unfolding(crate::specs::Grammar::fields_in, crate::specs::Grammar::use_in))]
fn used(fields: &[u8]) -> Option<TraceBody>
    ensures value { result ≡ fields_in Keyword.Use (words_of fields.now) }
    ensures range { IfSome result IsInRange }
{
    let word = one(fields)?;
    let number = decimal(word)?;
    Some(TraceBody::Use(number))
}

// Each of these has a read or a block of its own, so that a line pays for one of them alone.

#[tactic(auto, unfolding(crate::specs::Grammar::fields_in))]
fn matched(fields: &[u8]) -> Option<TraceBody>
    ensures value { result ≡ fields_in Keyword.Match (words_of fields.now) }
    ensures range { IfSome result IsInRange }
{
    Some(TraceBody::Note(Note::Match(read(fields)?)))
}

#[tactic(auto, unfolding(crate::specs::Grammar::fields_in))]
fn restarted(fields: &[u8]) -> Option<TraceBody>
    ensures value { result ≡ fields_in Keyword.Restart (words_of fields.now) }
    ensures range { IfSome result IsInRange }
{
    Some(TraceBody::Note(Note::Restart(read(fields)?)))
}

#[tactic(auto, unfolding(crate::specs::Grammar::fields_in))]
fn hinted(fields: &[u8]) -> Option<TraceBody>
    ensures value { result ≡ fields_in Keyword.Hint (words_of fields.now) }
    ensures range { IfSome result IsInRange }
{
    Some(TraceBody::Note(Note::Hint(read(fields)?)))
}

#[tactic(auto, unfolding(crate::specs::Grammar::fields_in))]
fn filled(fields: &[u8]) -> Option<TraceBody>
    ensures value { result ≡ fields_in Keyword.Fill (words_of fields.now) }
    ensures range { IfSome result IsInRange }
{
    Some(TraceBody::Note(Note::Fill(read(fields)?)))
}

#[tactic(auto, unfolding(crate::specs::Grammar::fields_in))]
fn stalled(fields: &[u8]) -> Option<TraceBody>
    ensures value { result ≡ fields_in Keyword.Stall (words_of fields.now) }
    ensures range { IfSome result IsInRange }
{
    Some(TraceBody::Note(Note::Stall(block(fields)?)))
}

#[tactic(auto, unfolding(crate::specs::Grammar::fields_in))]
fn fetched(fields: &[u8]) -> Option<TraceBody>
    ensures value { result ≡ fields_in Keyword.Fetch (words_of fields.now) }
    ensures range { IfSome result IsInRange }
{
    Some(TraceBody::Note(Note::Fetch(block(fields)?)))
}

#[tactic(auto, unfolding(crate::specs::Grammar::fields_in))]
fn dropped(fields: &[u8]) -> Option<TraceBody>
    ensures value { result ≡ fields_in Keyword.Drop (words_of fields.now) }
    ensures range { IfSome result IsInRange }
{
    Some(TraceBody::Note(Note::Drop(block(fields)?)))
}

#[tactic(auto, unfolding(crate::specs::Grammar::fields_in))]
fn lost(fields: &[u8]) -> Option<TraceBody>
    ensures value { result ≡ fields_in Keyword.Lost (words_of fields.now) }
    ensures range { IfSome result IsInRange }
{
    Some(TraceBody::Note(Note::Lost(block(fields)?)))
}

/// What the fields behind a keyword say.
pub fn body_behind(keyword: Keyword, fields: &[u8]) -> Option<TraceBody>
    ensures value { result ≡ fields_in keyword (words_of fields.now) }
    ensures range { IfSome result IsInRange }
{
    match keyword {
        Keyword::Call => call(fields),
        Keyword::Text => text(fields),
        Keyword::Match => matched(fields),
        Keyword::Restart => restarted(fields),
        Keyword::Stall => stalled(fields),
        Keyword::Hint => hinted(fields),
        Keyword::Fill => filled(fields),
        Keyword::Park => parked(fields),
        Keyword::Fetch => fetched(fields),
        Keyword::Drop => dropped(fields),
        Keyword::Lost => lost(fields),
        Keyword::Exit => exit(fields),
        Keyword::Trap => trapped(fields),
        Keyword::Fault => fault(fields),
        Keyword::Use => used(fields),
    }
}
