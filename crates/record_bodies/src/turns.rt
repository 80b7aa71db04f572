// What a record did, read from a run of bytes: the same for each program, over its own state and replies.
ghost use Rattle.std.specs.Prelude.{◌≡◌, false};

// What is in hand, the reply, where the next record begins, and whether to go on. `at` is given where the stream ends too (the
// definitions `ends`), so that `more` is no Option of it.
#[derive(Clone, Copy)]
pub struct Turn<S, R> {
    pub state: S,
    pub reply: R,
    pub at: usize,
    pub more: bool,
}

// The stream ends here with this reply.
pub fn last<S, R>(state: S, reply: R, at: usize) -> Turn<S, R>
    ensures { (result.state ≡ state) × (result.reply ≡ reply) × (result.at ≡ at) × (result.more ≡ false) }
{
    Turn {
        state,
        reply,
        at,
        more: false,
    }
}
