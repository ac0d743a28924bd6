/// What is asked.
#[derive(Drop)]
pub enum Query {
    /// The adjustment criterion for this set.
    Set(Vec<Vec<u8>>),
    /// The back-door criterion for this set.
    BackDoor(Vec<Vec<u8>>),
    /// The minimal sets, at most so many.
    List(u32),
}
