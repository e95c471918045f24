//! The law of COPY text: what is written is read again.

ghost use Rattle.std.specs.Prelude.{◌≡◌, ◌<◌, List, length, true, Ok};
ghost use Rattle.value.specs.declared.kind.Kind.{Kind};
ghost use Rattle.value.specs.declared.value.Value.{Value};
ghost use Rattle.copytext.specs.Writing.{line_text};
ghost use Rattle.copytext.specs.Reading.{line_values};
ghost use Rattle.copytext.specs.RoundTrip.{fit_kinds};

use std::alloc::Allocator;

/// The line that is written of values of these kinds reads as these values.
pub fn reads_what_is_written<A: Allocator>()
    ensures { (kinds : List Kind) (values : List (Value A)) → fit_kinds kinds values ≡ true → 0 < length values
        → line_values kinds (line_text values) ≡ Ok values }
{}
