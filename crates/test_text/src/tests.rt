mod dumps;
mod keys;
mod lines;
mod packing;
mod script;
mod streams;
mod unpacking;
