//! Which version this is.

/// The version of all that is in this repository, and what it follows. Nothing else in the repository states it but
/// `CHANGELOG.md`, whose first heading is this number.
pub(crate) const VERSION: &'static str = "3.0.0 (libyaml 0.2.5, YAML 1.1)";
