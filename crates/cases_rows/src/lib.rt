// Cases as rows of text, for a program that prints each row's label and an answer: `LABEL: CALL NUMBERS; LIST; LIST; LIST`.
//   call    the calls
//   text    numbers and lists of a row
//   row     a row read into lent lists
//   show    answers
#![tactic(auto)]

pub mod call;
pub mod row;
pub mod show;
pub mod text;
