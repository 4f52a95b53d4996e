// Pathfinder replies (000, Opcode Details; 01, Pathfinder): words into a lent row, a name into lent bytes, an acknowledgement, or the
// device's own failure.
#![tactic(auto)]

ghost use Rattle.std.specs.Prelude.{◌≡◌, ◌*◌, eqb, length, Some};
ghost use Rattle.records_pathfinder.specs.Replies.{words_judged, shaped, judged, reply_of, row_after, name_after};

use frames_pathfinder::read_frame;
use lists_pathfinder::read_words;
use opcodes_pathfinder::{Kind, Shape, kind_of, shape_of};
use refusals::Refusal;

// What a reply says.
#[derive(Clone, Copy, Debug, PartialEq, Eq)]
pub enum Reply {
    // So many words stand at the front of the row.
    Words(usize),
    // So many bytes of a name stand at the front of the lent bytes.
    Name(usize),
    // Register written.
    Written,
    // The device failed, with its own code.
    Failure(u8),
}

// Reads the reply to the request `asked`. Places of `row` and `name` past what is written keep their contents.
#[tactic(auto, using(crate::proofs::Answers::words_fit, crate::proofs::Answers::name_fit, crate::proofs::Filled::part_payload), unfolding(crate::specs::Replies::reply_of))]
pub fn read_reply(asked: u8, s: &[u8], row: &mut [i32], name: &mut [u8]) -> Result<Reply, Refusal>
    ensures answer { result ≡ reply_of asked (length row.old) (length name.old) s.now }
    ensures filled { row.new ≡ row_after result s.now row.old }
    ensures copied { name.new ≡ name_after result s.now name.old }
{
    let frame = read_frame(s)?;
    let reply = judge(asked, frame.opcode, frame.len, row.len(), name.len())?;
    let data = &s[frame.start..frame.start + frame.len];
    match reply {
        Reply::Words(n) => read_words(data, &mut row[..n])?,
        Reply::Name(n) => name[..n].copy_from_slice(data),
        Reply::Written | Reply::Failure(_) => {}
    }
    Ok(reply)
}

// What a whole frame says, by its opcode and the length of its data, with so much room.
#[tactic(auto, unfolding(crate::specs::Replies::judged))]
fn judge(asked: u8, opcode: u8, len: usize, words: usize, bytes: usize) -> Result<Reply, Refusal>
    ensures { result ≡ judged asked opcode len words bytes }
{
    match kind_of(asked, opcode) {
        Kind::Failure => {
            if 0 < len {
                Err(Refusal::Shape)
            } else {
                Ok(Reply::Failure(opcode))
            }
        }
        Kind::Asked => {
            let shape = shape_of(asked).ok_or(Refusal::Request)?;
            judge_shape(shape, len, words, bytes)
        }
        Kind::Other => Err(Refusal::Request),
    }
}

// What the asked reply says, by the length of its data.
fn judge_shape(shape: Shape, len: usize, words: usize, bytes: usize) -> Result<Reply, Refusal>
    ensures { result ≡ shaped (Some shape) len words bytes }
{
    match shape {
        Shape::Words(n) => judge_words(n, len, words),
        Shape::Name => {
            if bytes < len {
                Err(Refusal::Room)
            } else {
                Ok(Reply::Name(len))
            }
        }
        Shape::Nothing => {
            if len == 0 {
                Ok(Reply::Written)
            } else {
                Err(Refusal::Shape)
            }
        }
    }
}

#[tactic(auto, unfolding(crate::specs::Replies::words_judged))]
fn judge_words(n: usize, len: usize, room: usize) -> Result<Reply, Refusal>
    ensures { result ≡ words_judged n len room }
{
    let sized = is_sized(n, len);
    let roomy = n <= room;
    if !sized {
        return Err(Refusal::Shape);
    }
    if !roomy {
        return Err(Refusal::Room);
    }
    Ok(Reply::Words(n))
}

// Whether data of so many bytes are n words.
fn is_sized(n: usize, len: usize) -> bool
    ensures { result ≡ eqb len (4 * n) }
{
    len % 4 == 0 && len / 4 == n
}
