use dra_values::Text;

/// A request.
#[derive(Drop)]
pub struct Request {
    /// The method, as it is in the request line; upper and lower case differ.
    pub method: Text,
    /// The target, as it is in the request line, with what follows a `?` and without escapes
    /// decoded.
    pub target: Text,
    /// The body: as many bytes as `Content-Length` says, or none.
    pub body: Vec<u8>,
    /// Whether the connection ends after this request: it is of HTTP/1.0, or has `Connection: close`.
    pub last: bool,
}
