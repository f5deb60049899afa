// A row read into lent lists. A list that the row does not give stays as the rows before left it.
use crate::call::Call;
use crate::{show, text};

// The numbers of a call, in the row's order.
pub type Numbers = [u32; 9];

// A call with its numbers.
#[derive(Clone, Copy)]
pub struct Asked {
    pub call: Call,
    pub numbers: Numbers,
}

// What is asked, nothing in a remark, and how many places each list has.
#[derive(Clone, Copy)]
pub struct Row {
    pub asked: Option<Asked>,
    pub first: usize,
    pub second: usize,
    pub third: usize,
}

impl Row {
    // No row, and lists with no places.
    pub fn empty() -> Row {
        Row {
            asked: None,
            first: 0,
            second: 0,
            third: 0,
        }
    }
}

// Prints the label of the row that a line has, and reads the rest. A line with no colon is a remark: the lists stay.
pub fn read(
    rt: &impl Print,
    line: &[u8],
    before: Row,
    first: &mut [u32],
    second: &mut [u32],
    third: &mut [u32],
) -> Row {
    let colon = text::find(line, 0, b':');
    let (label, behind) = line.split_at(colon);
    if behind.is_empty() {
        return Row {
            asked: None,
            ..before
        };
    }
    show::text(rt, label);
    show::text(rt, b":");
    given(behind, before, first, second, third)
}

// What stands from the colon on.
fn given(
    text: &[u8],
    before: Row,
    first: &mut [u32],
    second: &mut [u32],
    third: &mut [u32],
) -> Row {
    let mut numbers = [0u32; 9];
    let list = text::list(text, 0, &mut numbers);
    let one = text::list(list.behind, before.first, first);
    let two = text::list(one.behind, before.second, second);
    let three = text::list(two.behind, before.third, third);
    Row {
        asked: letters(text).map(|letters| Asked {
            call: Call::from(letters),
            numbers,
        }),
        first: one.count,
        second: two.count,
        third: three.count,
    }
}

// The first two letters of the call, behind the colon and a space. There are none where they are missing, or both the byte 0.
fn letters(text: &[u8]) -> Option<[u8; 2]> {
    if text.len() < 4 || text[2] == 0 && text[3] == 0 {
        return None;
    }
    Some([text[2], text[3]])
}
