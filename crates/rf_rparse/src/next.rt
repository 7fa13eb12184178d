/// What a part of a text is when one more token has come.
#[derive(Drop)]
pub enum Next<S, X> {
    /// It goes on.
    More(S),
    /// It ends with this token.
    Whole(X),
    /// It has ended before this token.
    Held(X),
    /// The token can't stand there.
    No,
}
