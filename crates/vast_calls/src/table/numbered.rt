//! The calls by their numbers in packed lists.

ghost use Rattle.std.specs.Prelude.{◌≡◌, IfSome, Some};
ghost use Rattle.vast_calls.specs.CallNumbers.{IsNumberOf, name_numbered, name_at};
ghost use Rattle.vast_calls.specs.Internal.CallRows.{StandsAt, row_names};

use super::{
    CallRow, artifacts, expressions, helpers, loops, modules, operators, questions, statements,
    types,
};

/// A call's number is so many times its place in its group, and the group's place. So a call keeps its number, which stands
/// in packed lists, where one comes after it in its group.
pub(crate) const GROUPS: usize = 16;

/// A call: its group, and its place in it.
#[derive(Clone, Copy)]
pub enum Place {
    Operator(usize),
    Expression(usize),
    DataType(usize),
    Module(usize),
    Loop(usize),
    Statement(usize),
    Artifact(usize),
    Question(usize),
    Helper(usize),
}

impl Place {
    /// The call of this number.
    pub(crate) fn numbered(number: usize) -> Option<Place>
        ensures { IfSome result (λ place. name_at place ≡ name_numbered number) }
    {
        let place = number / GROUPS;
        match number % GROUPS {
            0 => Some(Place::Operator(place)),
            1 => Some(Place::Expression(place)),
            2 => Some(Place::DataType(place)),
            3 => Some(Place::Module(place)),
            4 => Some(Place::Loop(place)),
            5 => Some(Place::Statement(place)),
            6 => Some(Place::Artifact(place)),
            7 => Some(Place::Question(place)),
            8 => Some(Place::Helper(place)),
            _ => None,
        }
    }

    /// Its row.
    pub(crate) fn row(self) -> Option<&'static CallRow>
        ensures { IfSome result (λ row. name_at self ≡ Some row.now.0.now) }
    {
        match self {
            Place::Operator(place) => row_at(&operators::CALLS, place),
            Place::Expression(place) => row_at(&expressions::CALLS, place),
            Place::DataType(place) => row_at(&types::CALLS, place),
            Place::Module(place) => row_at(&modules::CALLS, place),
            Place::Loop(place) => row_at(&loops::CALLS, place),
            Place::Statement(place) => row_at(&statements::CALLS, place),
            Place::Artifact(place) => row_at(&artifacts::CALLS, place),
            Place::Question(place) => row_at(&questions::CALLS, place),
            Place::Helper(place) => row_at(&helpers::CALLS, place),
        }
    }

    /// The call of the name, its sign included.
    pub(crate) fn find(name: &str) -> Option<Place>
        ensures { IfSome result (λ place. name_at place ≡ Some name.now) }
    {
        Place::numbered(number_of(name)?)
    }
}

/// The numbers of the calls by the lengths of their names.
#[rattlefmt::skip]
static OF_LENGTH: [&[u16]; 32] = [
    &[],
    &[],
    &[],
    &[],
    &[],
    &[23],
    &[163, 304, 336, 368, 384, 400, 416],
    &[0, 6, 112, 128, 144, 147, 160, 176, 464, 480],
    &[67, 99, 113, 179, 256, 272, 288],
    &[51, 83, 145, 161, 192, 323],
    &[3, 32, 241, 320, 352, 417, 485],
    &[1, 5, 34, 38, 117, 133, 135, 183, 305, 353, 369, 405, 419, 517],
    &[19, 55, 80, 85, 167, 227, 293, 337, 357, 385],
    &[8, 22, 64, 87, 96, 115, 149, 177, 193, 224, 247, 259, 321, 339, 373, 389, 437, 448, 453],
    &[2, 16, 35, 36, 48, 50, 53, 101, 131, 165, 199, 208, 240, 277, 279, 295, 355, 421, 432, 469],
    &[4, 18, 39],
    &[21, 24, 69, 72, 195, 198, 215, 225, 275, 371, 501],
    &[17, 49, 56, 82, 103, 134, 261, 263],
    &[70, 119, 151, 180, 182, 245, 276, 291, 341, 387],
    &[7, 68, 84, 97, 114, 229, 243],
    &[164, 257, 309, 325, 401, 403],
    &[37, 52, 65, 66, 98, 100, 130, 209, 211, 244],
    &[81, 118, 148, 150, 260],
    &[20, 71, 129, 146, 230, 273, 307],
    &[86, 196, 214, 231],
    &[33, 102, 162, 228],
    &[54, 116, 181, 212, 289],
    &[],
    &[213],
    &[40, 166, 197],
    &[],
    &[132],
];

/// The number of the call of the name, its sign included.
pub(crate) fn number_of(name: &str) -> Option<usize>
    ensures { IfSome result (λ number. IsNumberOf number name.now) }
{
    number_among(OF_LENGTH.get(name.len())?, name)
}

/// The number of the call of the name, if it is one of these.
fn number_among(numbers: &[u16], name: &str) -> Option<usize>
    ensures { IfSome result (λ number. IsNumberOf number name.now) }
{
    for number in numbers {
        let number = usize::from(*number);
        match row_numbered(number) {
            Some(row) if row.name() == name => return Some(number),
            _ => {}
        }
    }
    None
}

/// The row of this place among these.
fn row_at(calls: &'static [CallRow], place: usize) -> Option<&'static CallRow>
    ensures { IfSome result (λ row. StandsAt (row_names calls.now) place row.now.0.now) }
{
    calls.get(place)
}

/// The row of the call of this number.
fn row_numbered(number: usize) -> Option<&'static CallRow>
    ensures { IfSome result (λ row. IsNumberOf number row.now.0.now) }
{
    Place::numbered(number)?.row()
}

/// The row of the call of the name, its sign included.
pub(crate) fn row_of(name: &str) -> Option<&'static CallRow>
    ensures { IfSome result (λ row. row.now.0.now ≡ name.now) }
{
    Place::find(name)?.row()
}
