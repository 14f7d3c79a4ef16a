//! Places of lists in a vector for all nodes.
ghost use Rattle.std.specs.Prelude.{◌≡◌, ◌<◌, ◌⊎◌, IfOk, OnErr, length};
ghost use Rattle.kt_graph.specs.inner.nodes.Stored.{IsSpanWithin, cut};

use kt_list::narrow;
use std::alloc::AllocError;

/// The places of a list in a vector for all nodes.
#[derive(Clone, Copy)]
pub(crate) struct Span {
    pub(crate) start: u32,
    pub(crate) end: u32,
}

/// A list in a vector for all nodes.
pub(crate) fn cut<T>(items: &[T], span: Span) -> &[T]
    requires { IsSpanWithin (length items.now) span }
    ensures { result.now ≡ cut items.now span }
{
    &items[span.start as usize..span.end as usize]
}

/// The span from one place to another. One beyond 4,294,967,295 is refused as if memory were.
pub(crate) fn span_of(start: usize, end: usize) -> Result<Span, AllocError>
    ensures span { IfOk result (λ span. (span.start ≡ start) × (span.end ≡ end)) }
    ensures large { OnErr result ((4294967295 < start) ⊎ (4294967295 < end)) }
{
    Ok(Span {
        start: narrow(start)?,
        end: narrow(end)?,
    })
}
