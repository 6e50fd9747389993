//! Keywords among the words, by a table of slots.

ghost use Rattle.std.specs.Prelude.{◌≡◌, ◌<◌, [], None, get_or, map};
ghost use Rattle.vast_literal.specs.Keyword.{keywords};
ghost use Rattle.vast_expressions.specs.Internal.Views.{token_view};
ghost use Rattle.vast_literal.specs.Tokens.{key_written, reserved_keys, word_token};
ghost use Rattle.vast_read.specs.Internal.KeywordSlots.{slot_of};

use crate::scanner::run::byte_at;
use vast_expressions::Token;
use vast_literal::{Key, system_verilog_keys, system_verilog_keywords};

/// The place in the table of keywords of the keyword of a slot, of which each keyword has one of its own; 0 where none has it.
#[rattlefmt::skip]
static PLACES: [u8; 512] = [
    17, 181, 85, 0, 137, 34, 58, 213, 128, 138, 0, 210, 0, 203, 241, 0, 0, 0, 0, 243, 0, 0, 0,
    218, 124, 0, 0, 0, 0, 197, 97, 92, 169, 0, 0, 43, 228, 0, 0, 0, 0, 0, 183, 80, 36, 0, 0,
    176, 0, 167, 0, 0, 7, 149, 83, 0, 0, 0, 4, 0, 0, 51, 118, 232, 150, 172, 0, 0, 0, 105, 182,
    0, 143, 0, 16, 0, 0, 191, 0, 0, 0, 0, 225, 65, 0, 175, 0, 0, 0, 0, 0, 0, 0, 0, 148, 0, 0,
    25, 69, 0, 0, 0, 122, 74, 0, 35, 1, 0, 145, 140, 0, 0, 37, 0, 0, 0, 0, 0, 209, 0, 73, 0,
    139, 0, 0, 238, 189, 0, 0, 0, 239, 0, 151, 208, 0, 102, 0, 8, 29, 0, 71, 0, 0, 0, 0, 0, 0,
    0, 211, 0, 0, 173, 0, 174, 0, 70, 212, 224, 0, 109, 0, 0, 13, 0, 0, 119, 11, 234, 0, 240, 0,
    0, 0, 0, 0, 0, 187, 0, 26, 0, 6, 0, 0, 0, 0, 0, 125, 0, 206, 0, 194, 244, 0, 220, 120, 0, 0,
    0, 195, 0, 146, 0, 205, 233, 147, 0, 82, 223, 157, 0, 0, 227, 49, 0, 0, 0, 196, 179, 156, 0,
    200, 198, 0, 0, 14, 98, 0, 144, 0, 75, 0, 0, 0, 0, 0, 0, 199, 0, 0, 0, 0, 0, 0, 0, 0, 0, 0,
    236, 0, 0, 0, 0, 10, 22, 0, 91, 0, 192, 0, 221, 0, 0, 61, 52, 0, 0, 207, 141, 0, 178, 0, 0,
    0, 87, 160, 154, 0, 0, 88, 56, 229, 0, 153, 0, 0, 114, 95, 0, 0, 76, 44, 0, 217, 0, 188, 59,
    0, 0, 112, 32, 0, 5, 0, 30, 46, 0, 0, 0, 0, 0, 93, 54, 0, 0, 0, 0, 0, 0, 0, 42, 185, 84, 0,
    53, 104, 0, 0, 0, 0, 77, 0, 0, 136, 0, 55, 15, 0, 0, 231, 41, 0, 0, 0, 62, 111, 0, 0, 0, 0,
    94, 0, 66, 0, 39, 0, 0, 184, 0, 0, 23, 180, 0, 202, 24, 0, 19, 0, 0, 0, 2, 20, 28, 40, 159,
    3, 64, 78, 0, 100, 0, 161, 170, 48, 103, 0, 0, 0, 0, 96, 0, 130, 171, 0, 131, 152, 0, 230,
    0, 0, 0, 0, 81, 0, 0, 142, 0, 0, 134, 45, 235, 101, 63, 27, 133, 0, 237, 0, 50, 204, 158,
    38, 0, 0, 107, 86, 135, 0, 106, 89, 0, 127, 60, 0, 0, 0, 0, 90, 0, 47, 110, 121, 57, 177, 0,
    201, 129, 226, 0, 0, 193, 0, 0, 0, 242, 0, 0, 0, 0, 0, 12, 72, 0, 126, 0, 117, 186, 245,
    214, 0, 67, 0, 0, 164, 246, 0, 123, 0, 162, 215, 0, 163, 0, 168, 247, 33, 0, 115, 222, 68,
    0, 0, 165, 21, 132, 166, 9, 18, 116, 31, 0, 0, 0, 113, 79, 155, 0, 219, 99, 190, 108, 216,
    0,
];

/// What moves keywords that would share a slot.
#[rattlefmt::skip]
static MOVES: [u8; 32] = [
    2, 0, 0, 16, 17, 0, 14, 10, 3, 6, 13, 0, 1, 8, 17, 13, 0, 11, 19, 10, 7, 0, 2, 0, 13, 0, 0,
    2, 3, 15, 24, 1,
];

/// The slot of a word, by its length and four of its bytes.
fn slot_of(word: &str) -> usize
    ensures slot { result ≡ slot_of MOVES word.now }
    ensures within { result < 512 }
{
    let first = byte_at(word, 0) as usize;
    let second = byte_at(word, 1) as usize;
    let middle = byte_at(word, word.len() / 2) as usize;
    let last = byte_at(word, word.len().saturating_sub(1)) as usize;
    let length = word.len() % 32;
    let moved = MOVES[(8 * first + 4 * second + 8 * last + 9 * length) % 32] as usize;
    (8 * first + 9 * second + 32 * middle + 5 * last + 8 * length + moved) % 512
}

/// The place in the table of the one keyword that the word may be.
fn place_of(word: &str) -> usize
    ensures place { result ≡ get_or PLACES (slot_of MOVES word.now) 0 }
    ensures within { result < 248 }
{
    PLACES[slot_of(word)] as usize
}

/// The keyword at a place of the table.
fn word_at(place: usize) -> &'static str
    requires { place < 248 }
    ensures { result.now ≡ get_or keywords place [] }
{
    system_verilog_keywords()[place]
}

/// The key of the keyword at a place of the table, where the grammar uses it.
fn key_at(place: usize) -> Option<Key>
    requires { place < 248 }
    ensures { result ≡ get_or (map (key_written reserved_keys) keywords) place None }
{
    system_verilog_keys()[place]
}

/// The token of a word: a keyword or a name.
pub(crate) fn word_token<'t>(word: &'t str) -> Token<'t>
    ensures { token_view result ≡ word_token word.now }
{
    let place = place_of(word);
    if word_at(place) == word {
        match key_at(place) {
            Some(key) => Token::Reserved(key),
            None => Token::Keyword(word),
        }
    } else {
        Token::Word(word)
    }
}
