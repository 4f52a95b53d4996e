// The opcodes of Pathfinder replies (000, Opcode Details; 01, Pathfinder): which there are, and what the reply to each request holds.
#![tactic(auto)]

ghost use Rattle.std.specs.Prelude.{◌≡◌};
ghost use Rattle.opcodes_pathfinder.specs.Opcodes.{is_listed, kind_of, shape_of};

// What a reply is, by its opcode.
#[derive(Clone, Copy, Debug, PartialEq, Eq)]
pub enum Kind {
    Failure,
    // The reply to the request asked.
    Asked,
    // Another reply, or there is no such request.
    Other,
}

// What the reply to a request holds.
#[derive(Clone, Copy, Debug, PartialEq, Eq)]
pub enum Shape {
    Words(usize),
    Name,
    Nothing,
}

// Sorts a reply to the request `asked` by its opcode.
#[tactic(auto, unfolding(crate::specs::Opcodes::kind_of, crate::specs::Opcodes::is_failure, crate::specs::Opcodes::is_listed))]
pub fn kind_of(asked: u8, opcode: u8) -> Kind
    ensures { result ≡ kind_of asked opcode }
{
    match opcode {
        0x20..=0x24 | 0x26 | 0x27 | 0x2D => {
            if is_listed(asked) {
                Kind::Failure
            } else {
                Kind::Other
            }
        }
        0x01..=0x05 | 0x0E => {
            if opcode == asked {
                Kind::Asked
            } else {
                Kind::Other
            }
        }
        _ => Kind::Other,
    }
}

// Whether there is such a request.
#[tactic(auto, unfolding(crate::specs::Opcodes::is_listed))]
fn is_listed(asked: u8) -> bool
    ensures { result ≡ is_listed asked }
{
    matches!(asked, 0x01..=0x05 | 0x0E)
}

// What the reply to a request holds, where there is such a request.
#[tactic(auto, unfolding(crate::specs::Opcodes::shape_of))]
pub fn shape_of(asked: u8) -> Option<Shape>
    ensures { result ≡ shape_of asked }
{
    match asked {
        0x01 => Some(Shape::Words(3)),
        0x02 => Some(Shape::Words(50)),
        0x03 => Some(Shape::Words(53)),
        0x04 => Some(Shape::Words(16)),
        0x05 => Some(Shape::Name),
        0x0E => Some(Shape::Nothing),
        _ => None,
    }
}
