/// A letter: its number in the cycle, its round, the list that it goes to, and what it carries.
#[derive(Debug, Drop)]
pub struct Letter<T> {
    pub number: u32,
    pub round: u32,
    pub to: u32,
    pub content: T,
}

/// A letter that is to be posted: the list that it goes to, and what it carries.
#[derive(Debug, Drop)]
pub struct Post<T> {
    pub to: u32,
    pub content: T,
}
