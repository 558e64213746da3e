//! How bytes that are a number are loaded and ordered.

ghost use Rattle.std.specs.Prelude.{◌≡◌, ◌+◌, ◌≤◌};
ghost use Rattle.rules.specs.Meaning.{layout_size};
ghost use Rattle.rules_compiler.specs.Terms as definitions;

use crate::pieces::{ANSWER, copy};
use machine_spec::{ByteOrder, Change, Instruction, Size, SwappedWidth};
use rules::Layout;

/// How many bytes are loaded.
pub fn size_of(layout: Layout) -> Size
    ensures { result ≡ definitions.size_of layout }
{
    match layout {
        Layout::Byte => Size::Byte,
        Layout::U16Be | Layout::U16Le => Size::Half,
        Layout::U32Be | Layout::U32Le => Size::Word,
        Layout::U64Be | Layout::U64Le => Size::Double,
    }
}

/// How many bytes a layout has.
pub fn layout_size(layout: Layout) -> u32
    ensures is_size { result ≡ layout_size layout }
    ensures is_small { result ≤ 8 }
{
    match layout {
        Layout::Byte => 1,
        Layout::U16Be | Layout::U16Le => 2,
        Layout::U32Be | Layout::U32Le => 4,
        Layout::U64Be | Layout::U64Le => 8,
    }
}

/// How many bytes of the value are loaded first.
pub fn first_size(layout: Layout) -> Size
    ensures { result ≡ definitions.first_size layout }
{
    match layout {
        Layout::Byte | Layout::U16Be | Layout::U32Be | Layout::U64Be => Size::Byte,
        Layout::U16Le => Size::Half,
        Layout::U32Le => Size::Word,
        Layout::U64Le => Size::Double,
    }
}

/// How many bytes follow these one by one.
pub fn more_of(layout: Layout) -> u32
    ensures is_count { result ≡ definitions.more_of layout }
    ensures is_within { result + 1 ≤ layout_size layout }
    ensures is_small { result ≤ 7 }
{
    match layout {
        Layout::Byte | Layout::U16Le | Layout::U32Le | Layout::U64Le => 0,
        Layout::U16Be => 1,
        Layout::U32Be => 3,
        Layout::U64Be => 7,
    }
}

fn turned(width: SwappedWidth) -> Instruction
    ensures { result ≡ definitions.turned width }
{
    Instruction::Unary(Change::Order(ByteOrder::BigEndian, width), ANSWER, ANSWER)
}

/// The bytes of r0 as the layout orders them, one instruction of each layout; where they are so, r1 gets them too, which
/// takes less time than to move r0 to itself.
pub fn ordered(layout: Layout) -> Instruction
    ensures { result ≡ definitions.ordered layout }
{
    match layout {
        Layout::Byte | Layout::U16Le | Layout::U32Le | Layout::U64Le => copy(1, ANSWER),
        Layout::U16Be => turned(SwappedWidth::Bits16),
        Layout::U32Be => turned(SwappedWidth::Bits32),
        Layout::U64Be => turned(SwappedWidth::Bits64),
    }
}
