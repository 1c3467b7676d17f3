// The gate played by its public calls. What goes out, what is taken and who is told are worked out by hand from the rules.
mod down;
mod misuse;
mod play;
mod refusals;
mod whole;
