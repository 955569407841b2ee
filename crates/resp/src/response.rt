use resp_core::Value;

/// A server's reply: a value or an error.
#[derive(Debug, Drop)]
pub enum Response {
    /// A value.
    Value(Value),
    /// An error, as `ERR unknown command`: the bytes of the line after its `-`.
    Error(Vec<u8>),
}
