//! The tags that nodes have by default, and what they begin with.

/// The tag that a scalar has by default.
pub const YAML_STR_TAG: &[u8] = b"tag:yaml.org,2002:str";

/// The tag that a sequence has by default.
pub const YAML_SEQ_TAG: &[u8] = b"tag:yaml.org,2002:seq";

/// The tag that a mapping has by default.
pub const YAML_MAP_TAG: &[u8] = b"tag:yaml.org,2002:map";

/// What the handle `!!` stands for where no directive says it.
pub const SECONDARY_PREFIX: &[u8] = b"tag:yaml.org,2002:";
