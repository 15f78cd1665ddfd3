// A station's place for what it holds of one peer: a slot, or a token.
#[derive(Clone, Copy)]
pub struct PeerCell<T> {
    pub held: Option<T>,
}
