/// An edit of a plan, with shapes of this type.
#[derive(Drop)]
pub enum Edit<S> {
    /// The live feature of this handle gets this shape.
    Put { handle: u32, shape: S },
    /// A feature of this class, this subtype and this shape comes under the next handle.
    Add { class: u16, subtype: u8, shape: S },
}
