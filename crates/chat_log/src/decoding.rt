//! A chat's state from bytes, in one pass.

ghost use Rattle.std.specs.Prelude.{◌≡◌, IfOk};
ghost use Rattle.chat_log.specs.Chat.{said};
ghost use Rattle.big_endian.specs.Reading.{IsReadOrNone, number_at, list_at};
ghost use Rattle.chat_log.specs.Encoding.{payload_at, line_at, chat_decode};

use crate::lines::push_line;
use crate::{ChatSize, Line};
use address::Address;
use address::limits::PAYLOAD;
use big_endian::Reader;
use std::alloc::{AllocError, Global};
use std::collections::VecDeque;

/// A line, its payload in lent bytes.
#[derive(Drop)]
struct LentLine<'a> {
    sender: Address,
    payload: &'a [u8],
}

#[tactic(auto, unfolding(big_endian::specs::Reading::sized_at))]
fn payload_at<'a>(from: &mut Reader<'a>) -> Option<&'a [u8]>
    ensures { IsReadOrNone (λ x. (x.now, from.new)) result (payload_at from.old) }
{
    let len = from.u16(0, PAYLOAD as u16)?;
    from.bytes(usize::from(len))
}

#[tactic(auto, unfolding(crate::specs::Encoding::line_at))]
fn line_at<'a>(from: &mut Reader<'a>) -> Option<LentLine<'a>>
    ensures { IsReadOrNone (λ x. (said x.sender x.payload.now, from.new)) result (line_at from.old) }
{
    let sender = from.address()?;
    let payload = payload_at(from)?;
    Some(LentLine { sender, payload })
}

fn lines_at(
    alloc: Global,
    count: u16,
    from: &mut Reader<'_>,
) -> Result<Option<VecDeque<Line>>, AllocError>
    ensures { IfOk result (λ lines. IsReadOrNone (λ l. (l.items, from.new)) lines (list_at line_at count from.old)) }
{
    let mut lines = VecDeque::new(alloc);
    for _ in 0..count {
        let Some(line) = line_at(from) else {
            return Ok(None);
        };
        push_line(&mut lines, line.sender, line.payload)?;
    }
    Ok(Some(lines))
}

fn count_at<L: ChatSize>(from: &mut Reader<'_>) -> Option<u16>
    ensures { IsReadOrNone (λ x. (x, from.new)) result (number_at L.WIDTH 0 L.LINES from.old) }
{
    if L::WIDTH == 1 {
        let count = from.u8(0, L::LINES as u8)?;
        return Some(u16::from(count));
    }
    from.u16(0, L::LINES as u16)
}

// The lines of the state that bytes stand for.
#[tactic(auto, unfolding(crate::specs::Encoding::lines_at, crate::specs::Encoding::chat_decode))]
pub(crate) fn chat_of<L: ChatSize>(
    alloc: Global,
    bytes: &[u8],
) -> Result<Option<VecDeque<Line>>, AllocError>
    ensures { IfOk result (λ lines. IsReadOrNone (λ l. l.items) lines (chat_decode L.LINES L.WIDTH bytes.now)) }
{
    let mut from = Reader::new(bytes);
    let Some(count) = count_at::<L>(&mut from) else {
        return Ok(None);
    };
    let Some(lines) = lines_at(alloc, count, &mut from)? else {
        return Ok(None);
    };
    if !from.is_empty() {
        return Ok(None);
    }
    Ok(Some(lines))
}
