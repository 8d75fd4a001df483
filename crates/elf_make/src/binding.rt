//! The binding of a symbol.

/// Whether a symbol is visible to other files (Tool Interface Standard, Executable and Linking Format Specification,
/// "Symbol Binding").
#[derive(Clone, Copy)]
pub(crate) enum SymbolBinding {
    /// A label that is not exported: `STB_LOCAL`.
    Local,
    /// A label that is exported: `STB_GLOBAL`.
    Global,
}
