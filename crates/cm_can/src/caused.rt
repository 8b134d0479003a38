use crate::control_frame::ControlFrame;
use crate::frame::CanFrame;
use crate::request::Request;

/// A frame of one kind, which has a cause: by its type no frame of another kind is written where these are.
pub trait Caused: Drop {
    ghost use Rattle.std.specs.Prelude.{◌≡◌};
    ghost use Rattle.cm_can.specs.declared.frame.CanFrame.{CanFrame as FrameOf};

    /// What is true of each frame of the kind.
    ghost causes: { FrameOf → Type 0 };

    /// The frame itself.
    ghost of: { Self → FrameOf };

    ghost caused: { (f : Self) → causes (of f) };

    /// The frame itself.
    fn frame(&self) -> CanFrame
        ensures { result ≡ of self.now };
}

impl Caused for Request {
    ghost use Rattle.cm_can.specs.Requests.{IsToNode};

    ghost causes = { IsToNode };

    ghost of = { λ r. r.frame };

    ghost caused = { λ r. r.to_node };

    fn frame(&self) -> CanFrame {
        self.frame
    }
}

impl Caused for ControlFrame {
    ghost use Rattle.cm_can.specs.Requests.{IsErrorControlFrame};

    ghost causes = { IsErrorControlFrame };

    ghost of = { λ c. c.frame };

    ghost caused = { λ c. (c.from, c.upto) };

    fn frame(&self) -> CanFrame {
        self.frame
    }
}
