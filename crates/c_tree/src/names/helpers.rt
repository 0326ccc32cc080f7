//! The functions that each file of C begins with.
ghost use Rattle.std.specs.Prelude.{◌≡◌, ◌++◌, OnOk, string_bytes};
ghost use Rattle.c_tree.specs.Names.Helpers.{margin, helpers};

use std::alloc::AllocError;

/// Appends a line at the margin.
pub fn put_margin(out: &mut String, text: &str) -> Result<(), AllocError>
    ensures { OnOk result (string_bytes out.new ≡ string_bytes out.old ++ margin text.now) }
{
    out.push_str(text)?;
    out.push_str("\n")
}

/// Appends the four helpers.
pub fn put_helpers(out: &mut String) -> Result<(), AllocError>
    ensures { OnOk result (string_bytes out.new ≡ string_bytes out.old ++ helpers) }
{
    put_margin(
        out,
        "static inline int64_t exo_div(int64_t a, int64_t b) { int64_t q = a / b; return (a % b < 0) ? q - 1 : q; }",
    )?;
    put_margin(
        out,
        "static inline int64_t exo_mod(int64_t a, int64_t b) { int64_t r = a % b; return (r < 0) ? r + b : r; }",
    )?;
    put_margin(
        out,
        "static inline uint32_t exo_relu(uint32_t x) { return ((int32_t)x > 0) ? x : 0; }",
    )?;
    put_margin(
        out,
        "static inline uint32_t exo_select(uint32_t x, uint32_t v, uint32_t y, uint32_t z) { return ((int32_t)x < (int32_t)v) ? y : z; }",
    )
}
