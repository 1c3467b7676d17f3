// Connections played by their public calls with the ear. What was said, what the clients get and who is told are worked out by hand from the rules.
mod bodies;
mod down;
mod fields;
mod limits;
mod order;
mod play;
