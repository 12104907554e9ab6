//! The tokens of bodies that go on, and the answers of a move.

ghost use Rattle.std.specs.Prelude.{◌≡◌};

use just_host_record::Host;
use just_sched_history::Idle;

/// A body that runs a child, which is to be waited for. Only a book makes one.
pub struct OpenBody<H: Host> {
    node: u32,
    child: u32,
    inner: H::Child,
    ghost numbered: { child ≡ H.child_number inner },
}

/// A body whose child has ended, which the book is to note. Only `OpenBody::wait` makes one.
pub struct WaitedBody<H: Host> {
    node: u32,
    child: u32,
    done: H::Done,
    ghost numbered: { H.done_number done ≡ child },
}

/// A body whose child's end was noted, and which is to go on. Only a book makes one.
pub struct HeldBody {
    node: u32,
}

/// What became of a move.
pub enum Next<H: Host> {
    /// A node was gone on with, and no child of it runs.
    Moved,
    /// A child was started.
    Body(OpenBody<H>),
    /// Nothing can be done now.
    Idle(Idle),
}

impl<H: Host> OpenBody<H> {
    pub(crate) fn new(node: u32, child: u32, inner: H::Child) -> OpenBody<H>
        requires { child ≡ H.child_number inner }
        ensures node { result.node ≡ node }
        ensures child { result.child ≡ child }
    {
        OpenBody { node, child, inner }
    }

    /// The number of its node.
    pub fn node(&self) -> u32
        ensures { result ≡ self.now.node }
    {
        self.node
    }

    /// The number of its child.
    pub fn child(&self) -> u32
        ensures { result ≡ self.now.child }
    {
        self.child
    }

    /// Waits until the child has ended. It takes no memory, and no book.
    pub fn wait(self) -> WaitedBody<H>
        ensures node { result.node ≡ self.node }
        ensures child { result.child ≡ self.child }
    {
        let OpenBody { node, child, inner } = self;
        WaitedBody {
            node,
            child,
            done: H::wait(inner),
        }
    }
}

impl<H: Host> WaitedBody<H> {
    /// The number of its node.
    pub fn node(&self) -> u32
        ensures { result ≡ self.now.node }
    {
        self.node
    }

    /// The number of its child.
    pub fn child(&self) -> u32
        ensures { result ≡ self.now.child }
    {
        self.child
    }

    pub(crate) fn take_apart(self) -> (u32, u32, H::Done)
        ensures node { result.0 ≡ self.node }
        ensures child { result.1 ≡ self.child }
        ensures done { H.done_number result.2 ≡ self.child }
    {
        let WaitedBody { node, child, done } = self;
        (node, child, done)
    }
}

impl HeldBody {
    pub(crate) fn new(node: u32) -> HeldBody
        ensures { result.node ≡ node }
    {
        HeldBody { node }
    }

    pub(crate) fn into_node(self) -> u32
        ensures { result ≡ self.node }
    {
        let HeldBody { node } = self;
        node
    }

    /// The number of its node.
    pub fn node(&self) -> u32
        ensures { result ≡ self.now.node }
    {
        self.node
    }
}
