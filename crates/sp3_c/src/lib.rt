// The archive for C: the doors of the library `sp3` under their names. Each calls the door of its name and promises what that promises.
#![tactic(auto)]

mod asking;
mod lists;
mod reading;
mod walking;
