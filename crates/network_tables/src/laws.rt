// Laws of the definitions that need no call.
ghost use Rattle.std.specs.List.{AllZip};
ghost use Rattle.std.specs.Prelude.{◌≡◌, ℕ, List, Some, None};
ghost use Rattle.network_tables.specs.Jobs.{job_of, jobs_in, jobs_schema};
ghost use Rattle.table_reader.specs.Words.{first_table_fault, records_of, rows_of};

/// The law of a table of jobs without a fault: each data row has its job, in their order. The call does nothing.
pub fn each_row_has_its_job()
    ensures { (bytes : List ℕ) → first_table_fault jobs_schema (records_of bytes) ≡ None
        → AllZip (λ row job. job_of row ≡ Some job) (rows_of bytes) (jobs_in (rows_of bytes)) }
{}
