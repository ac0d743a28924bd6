/// How an edge of a walk leads on: `->`, `<-` or `<->`.
#[derive(Clone, Copy, Debug, PartialEq, Eq)]
pub enum Mark {
    Out,
    Into,
    Both,
}
