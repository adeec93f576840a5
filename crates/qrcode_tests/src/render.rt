//! Tests of pictures: worked examples. `evidence/memory/cases` and
//! the tests of the C library draw more.

mod drawings;
mod images;
mod pictures;
mod texts;
