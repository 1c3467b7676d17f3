// What a reader finds at the front of a text.

#[derive(Drop)]
pub enum Got<'a, T> {
    // it waits for more
    More,
    // it gives up
    Bad,
    // something whole, and what follows it
    Whole(T, &'a [u8]),
}
