//! The rows of the four tables as records.

use crate::dump_row::DumpRow;
use crate::fields::{push_number, push_numbers, push_phone};
use csv::ByteRecord;
use std::alloc::{AllocError, Global};
use tatp_model::{AccessRow, CallRow, FacRow, SubRow};

impl DumpRow for SubRow {
    ghost use Rattle.tatp_model.specs.Database.{IsSubRow};
    ghost use Rattle.tatp_text.specs.Dump.{subscriber_record};

    ghost record_fields = { subscriber_record };

    ghost in_range = { IsSubRow };

    fn fill(&self, alloc: Global, fields: &mut ByteRecord) -> Result<(), AllocError> {
        fields.clear();
        fields.push_field(b"SUBSCRIBER")?;
        push_number(fields, self.s_id)?;
        push_phone(alloc, fields, self.sub_nbr)?;
        push_numbers(fields, &self.bits)?;
        push_numbers(fields, &self.hexes)?;
        push_numbers(fields, &self.bytes)?;
        push_number(fields, self.msc)?;
        push_number(fields, self.vlr)
    }
}

impl DumpRow for AccessRow {
    ghost use Rattle.tatp_model.specs.Database.{IsAccessRow};
    ghost use Rattle.tatp_text.specs.Dump.{access_record};

    ghost record_fields = { access_record };

    ghost in_range = { IsAccessRow };

    fn fill(&self, _alloc: Global, fields: &mut ByteRecord) -> Result<(), AllocError> {
        fields.clear();
        fields.push_field(b"ACCESS_INFO")?;
        push_number(fields, self.s_id)?;
        push_number(fields, self.ai_type)?;
        push_number(fields, u64::from(self.info.data1))?;
        push_number(fields, u64::from(self.info.data2))?;
        fields.push_field(&self.info.data3)?;
        fields.push_field(&self.info.data4)
    }
}

impl DumpRow for FacRow {
    ghost use Rattle.tatp_model.specs.Database.{IsFacRow};
    ghost use Rattle.tatp_text.specs.Dump.{facility_record};

    ghost record_fields = { facility_record };

    ghost in_range = { IsFacRow };

    fn fill(&self, _alloc: Global, fields: &mut ByteRecord) -> Result<(), AllocError> {
        fields.clear();
        fields.push_field(b"SPECIAL_FACILITY")?;
        push_number(fields, self.s_id)?;
        push_number(fields, self.sf_type)?;
        push_number(fields, u64::from(self.is_active))?;
        push_number(fields, u64::from(self.error_cntrl))?;
        push_number(fields, u64::from(self.data_a))?;
        fields.push_field(&self.data_b)
    }
}

impl DumpRow for CallRow {
    ghost use Rattle.tatp_model.specs.Database.{IsCallRow};
    ghost use Rattle.tatp_text.specs.Dump.{call_record};

    ghost record_fields = { call_record };

    ghost in_range = { IsCallRow };

    fn fill(&self, alloc: Global, fields: &mut ByteRecord) -> Result<(), AllocError> {
        fields.clear();
        fields.push_field(b"CALL_FORWARDING")?;
        push_number(fields, self.s_id)?;
        push_number(fields, self.sf_type)?;
        push_number(fields, self.start_time)?;
        push_number(fields, self.end_time)?;
        push_phone(alloc, fields, self.numberx)
    }
}
