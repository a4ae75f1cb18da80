//! Rows beside what is told of them, from the flash up to the program's three functions.

mod asserts;
mod debouncing;
mod descriptors;
mod endpoint;
mod flash;
mod gathering;
mod kernels;
mod lines;
mod parsing;
mod reading;
mod rows;
mod scripts;
mod store;
mod streams;
