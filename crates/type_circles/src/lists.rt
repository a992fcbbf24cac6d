// Lists of numbers, one for each row.

use cil_base::U32s;
use sqlite_items::Items;

/// By TypeDef row from 0: the numbers of the types to which it leads.
pub type Lists = Items<U32s>;
