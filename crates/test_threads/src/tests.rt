mod cells;
mod line;
mod machines;
mod serving;
