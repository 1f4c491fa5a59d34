//! The size of a site.

/// The most pages of a site.
pub const MOST_PAGES: u32 = 64;
