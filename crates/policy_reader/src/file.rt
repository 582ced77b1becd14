// The number of a string, and the place of its first fault.
ghost use Rattle.std.specs.Prelude.{◌≡◌, ◌≤◌, length};
ghost use Rattle.policy_grammar.specs.Parser.{filling};
ghost use Rattle.policy_grammar.specs.Layout as Layout;
ghost use Rattle.policy_answers.specs.Answers.{file_answer};
ghost use Rattle.policy_reader.specs.Inner.{counted_of};
ghost use Rattle.policy_reader.specs.Readings.{ReadExactly};

use crate::extents::further;
use crate::lists::lists_extent;
use crate::numbers::number;
use crate::{FIRST_LIST, LARGEST_FILE, LEAST_FILE, LIST_COUNT, MARK, MOST_LISTS, ZEROS};
use field::Fault;
use policy_answers::FileFault;

// The number of the lists of s, field by field in file order. A string of the least size has all the fields before its lists.
fn counted(s: &[u8]) -> Result<usize, Fault>
    requires { 36 ≤ length s.now }
    ensures { result ≡ counted_of (filling Layout.file s.now) }
{
    if !field::marked(s, 0, &MARK) {
        return Err(Fault { at: 0 });
    }
    if !field::marked(s, ZEROS, b"\0\0\0") {
        return Err(Fault { at: ZEROS });
    }
    let lists = number(s, LIST_COUNT, 1);
    if lists < 1 {
        return Err(Fault { at: LIST_COUNT });
    }
    if MOST_LISTS < lists {
        return Err(Fault { at: LIST_COUNT });
    }
    further(FIRST_LIST, lists_extent(&s[FIRST_LIST..], lists))?;
    Ok(lists)
}

// What the string s is: accepted, with the number of its lists, or of a wrong size, or not of the grammar, with the offset of the first field at fault.
pub fn read(s: &[u8]) -> Result<usize, FileFault>
    ensures { (result ≡ file_answer s.now) × ReadExactly s.now result }
{
    if s.len() < LEAST_FILE {
        return Err(FileFault::WrongSize);
    }
    if LARGEST_FILE < s.len() {
        return Err(FileFault::WrongSize);
    }
    counted(s).map_err(|f| FileFault::NotOfGrammar { place: f.at })
}
