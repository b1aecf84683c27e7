//! What programs of rows do alike: they read lines of standard input, and write each with its answer. A line has words, and a word is
//! a number, a text in quotes, a pair or a setting. What is not understood is said in place of the answer.
#![tactic(auto)]

mod row_fault;
mod rows;
mod running;
mod showing;
mod words;

pub use row_fault::RowFault;
pub use rows::{RowAnswers, answers_to_rows};
pub use running::{TextAnswers, run};
pub use showing::{show, show_text};
pub use words::{all_parsed, next_setting, next_word, pair_of, parsed, text_of};
