// The numbers of the layout (linux/capability.h), for the code; contracts cite those of the definitions.

/// How many bytes an attribute of version 2 has (XATTR_CAPS_SZ_2).
pub(crate) const SIZE_2: usize = 20;

/// And one of version 3 (XATTR_CAPS_SZ_3).
pub(crate) const SIZE_3: usize = 24;

/// The first word of version 2 without the effective bit (VFS_CAP_REVISION_2).
pub(crate) const VERSION_2: u32 = 0x0200_0000;

/// And that of version 3 (VFS_CAP_REVISION_3).
pub(crate) const VERSION_3: u32 = 0x0300_0000;

/// The effective bit of the first word (VFS_CAP_FLAGS_EFFECTIVE).
pub(crate) const EFFECTIVE: u32 = 1;
