//! The header of a section.

/// The fields of a section's header, in the order of the file (Tool Interface Standard, Executable and Linking Format
/// Specification, "Section Header").
#[derive(Clone, Copy)]
pub(crate) struct SectionFields {
    /// Where the section's name begins among the names of the sections.
    pub name: u32,
    /// What the section holds (`SHT_PROGBITS`, `SHT_SYMTAB`, `SHT_STRTAB`).
    pub kind: u32,
    /// Whether it is in memory, and may be written or executed (`SHF_ALLOC`, `SHF_WRITE`, `SHF_EXECINSTR`).
    pub flags: u32,
    /// Where it begins in memory.
    pub address: u32,
    /// Where it begins in the file.
    pub offset: u32,
    /// How many bytes it has.
    pub len: u32,
    /// For symbols, the index of the section with their names.
    pub link: u32,
    /// For symbols, the index of the first that is not local.
    pub info: u32,
    /// Its address is a multiple of this.
    pub alignment: u32,
    /// How many bytes an entry has, if all have the same size.
    pub entry_len: u32,
}

/// The header with the index 0, which describes no section.
pub(crate) const NO_SECTION: SectionFields = SectionFields {
    name: 0,
    kind: 0,
    flags: 0,
    address: 0,
    offset: 0,
    len: 0,
    link: 0,
    info: 0,
    alignment: 0,
    entry_len: 0,
};
