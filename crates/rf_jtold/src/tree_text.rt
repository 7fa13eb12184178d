use rf_jtree::{Dims, Name, Tok, TypeBase, TypeUse};
use rf_text::{Bytes, Memory};
use std::alloc::Global;

const OPEN: &str = "«";

const CLOSE: &str = "»";

/// The text so far. Where memory is wanted, what is told further is lost, and the end says so, so that no call has to.
#[derive(Drop)]
pub(crate) struct TreeText {
    bytes: Bytes,
    lost: bool,
}

impl TreeText {
    pub(crate) fn new(alloc: Global) -> TreeText {
        TreeText {
            bytes: Bytes::new(alloc),
            lost: false,
        }
    }

    pub(crate) fn into_bytes(self) -> Result<Bytes, Memory> {
        if self.lost {
            return Err(Memory);
        }
        Ok(self.bytes)
    }

    fn put(&mut self, bytes: &[u8]) {
        if self.bytes.extend(bytes).is_err() {
            self.lost = true;
        }
    }

    /// A space, but for the beginning of the text and of a node.
    fn gap(&mut self) {
        match self.bytes.as_slice() {
            [] | [.., 0xAB] => (),
            _ => self.put(b" "),
        }
    }

    pub(crate) fn open(&mut self) {
        self.gap();
        self.put(OPEN.as_bytes());
    }

    pub(crate) fn close(&mut self) {
        self.put(CLOSE.as_bytes());
    }

    pub(crate) fn tok(&mut self, tok: &Tok) {
        self.gap();
        self.near(tok);
    }

    /// A token without a space before it.
    pub(crate) fn near(&mut self, tok: &Tok) {
        self.put(tok.text.as_slice());
    }

    pub(crate) fn name(&mut self, name: &Name) {
        self.tok(&name.ids.first);
        for (dot, id) in name.ids.rest.as_slice() {
            self.near(dot);
            self.near(id);
        }
    }

    pub(crate) fn dims(&mut self, dims: &Dims) {
        for (left, right) in dims.list.as_slice() {
            self.near(left);
            self.near(right);
        }
    }

    pub(crate) fn base(&mut self, base: &TypeBase) {
        match base {
            TypeBase::Prim(word) => self.tok(word),
            TypeBase::Named(name) => self.name(name),
        }
    }

    pub(crate) fn type_use(&mut self, used_type: &TypeUse) {
        self.base(&used_type.base);
        self.dims(&used_type.dims);
    }
}
