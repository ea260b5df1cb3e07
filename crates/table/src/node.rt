// A node.
ghost use Rattle.std.specs.Prelude.{◌≡◌, max};

use lookup::Keyed;

// A set by its lowest code, the number of its with-side and that of its without-side.
#[derive(Clone, Copy, PartialEq, Eq, Debug)]
pub struct Node {
    pub code: u16,
    pub with: u16,
    pub without: u16,
}

impl Node {
    // The higher of the numbers of the two sides.
    pub fn larger_side(&self) -> u16
        ensures { result ≡ max self.now.with self.now.without }
    {
        self.with.max(self.without)
    }
}

// A node is found by its code and sides.
impl Keyed<Node> for Node {
    ghost has = { λ x key. x ≡ key };

    fn is(&self, key: &Node) -> bool {
        self == key
    }
}
