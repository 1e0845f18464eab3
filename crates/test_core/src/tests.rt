mod allocator;
mod core_calls;
mod directories;
