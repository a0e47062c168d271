#![tactic(auto)]

// The C functions of the library: each calls the entry of lin_host with its name, and promises what that promises. The archive of the Rust host is made of it.
// (01: "Entries on numbers and byte slices are exported ..")
mod annotations;
mod auctions;
mod boards;
mod converting;
mod files;
mod tokens;
mod writing;
